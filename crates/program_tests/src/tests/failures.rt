//! A read or a write that fails.

use command_line::{run_with, status_of};
use std::alloc::Global;
use std::io;
use std::io::{Error, ErrorKind, Read, Write};
use std::sync::Wait;
use std::test::Fail;
use std::thread::Threads;
use text_engines::{IoStopped, Watched};

// Words, what is read behind them, what is written for it, and the status.
struct Row {
    words: &'static [&'static str],
    input: &'static [u8],
    text: &'static [u8],
    status: u8,
}

static ROWS: [Row; 7] = [
    // A KEEPALIVE, and a message of a type that there is not.
    Row {
        words: &["decode"],
        input: b"ffffffff ffffffff ffffffff ffffffff 0013 04 ffffffff ffffffff ffffffff ffffffff 0013 05",
        text: b"keepalive\nfault 1 3\nffffffffffffffffffffffffffffffff001603010305\n",
        status: 1,
    },
    // One router that keeps what it originates.
    Row {
        words: &["check"],
        input: b"router 1 10.0.0.1\norigin 1 10.0.0.0/8\nassignment\npath 1 10.0.0.0/8 1\n",
        text: b"stable\n",
        status: 0,
    },
    Row {
        words: &["safe"],
        input: b"router 1 10.0.0.1\norigin 1 10.0.0.0/8\n",
        text: b"prefix 10.0.0.0/8 safe\n",
        status: 0,
    },
    Row {
        words: &["play"],
        input: b"router 1 10.0.0.1\norigin 1 10.0.0.0/8\nschedule\nrounds 1\n",
        text: b"now\nroute 1 10.0.0.0/8 none\n",
        status: 0,
    },
    Row {
        words: &["run", "--turns", "100"],
        input: b"router 1 10.0.0.1\norigin 1 10.0.0.0/8\n",
        text: b"route 1 10.0.0.0/8 1\n",
        status: 0,
    },
    // An order that is refused.
    Row {
        words: &["trace"],
        input: b"router 1 10.0.0.1\nschedule\nstart 1 1\n",
        text: b"router 1 10.0.0.1\nschedule\n# refused 3 E1\n",
        status: 1,
    },
    // One router that records a snapshot.
    Row {
        words: &["cut", "1"],
        input: b"router 1 10.0.0.1\nschedule\nsnapshot 1 1\noffer 1\n",
        text: b"cut 1 after 1 of 2\n",
        status: 0,
    },
];

// The words of each engine.
static ENGINES: [&[&str]; 7] = [
    &["decode"],
    &["check"],
    &["play"],
    &["trace"],
    &["cut", "1"],
    &["run"],
    &["record"],
];

// Gives three octets at a time, and fails at a read.
#[derive(Drop)]
struct Halting<'a> {
    left: &'a [u8],
    reads: usize,
}

impl Read for Halting<'_> {
    fn read(&mut self, buf: &mut [u8]) -> io::Result<usize> {
        if self.reads == 0 {
            return Err(Error::from(ErrorKind::BrokenPipe));
        }
        self.reads -= 1;
        let n = self.left.len().min(buf.len()).min(3);
        let (front, back) = self.left.split_at(n);
        buf[..n].copy_from_slice(front);
        self.left = back;
        Ok(n)
    }
}

// Takes three octets at a time, and then fails, or takes none.
#[derive(Drop)]
struct Narrow {
    taken: Vec<u8>,
    room: usize,
    fails: bool,
}

impl Write for Narrow {
    fn write(&mut self, buf: &[u8]) -> io::Result<usize> {
        let n = self.room.min(buf.len()).min(3);
        if n == 0 && self.fails {
            return Err(Error::from(ErrorKind::BrokenPipe));
        }
        self.taken.extend_from_slice(&buf[..n])?;
        self.room -= n;
        Ok(n)
    }

    fn flush(&mut self) -> io::Result<()> {
        Ok(())
    }
}

// Each read fails in turn, until none does.
#[test]
fn a_read_fails(rt: HostRuntime) -> Result<(), Fail> {
    let alloc = rt.alloc();
    for row in &ROWS {
        let wanted = row.input.len().div_ceil(3).saturating_add(1);
        for reads in 0..=wanted {
            let mut reader = Watched::new(Halting {
                left: row.input,
                reads,
            });
            let mut writer = Watched::new(Vec::new(alloc));
            let got = run_with(&rt, alloc, row.words, &mut reader, &mut writer).ok();
            let out: Vec<u8> = writer.into_inner();
            if reads < wanted {
                assert!(rt; got.is_none(), "{reads} reads");
                assert!(rt; out.is_empty());
            } else {
                assert!(rt; got == Some(row.status));
                assert!(rt; out.as_slice() == row.text);
            }
        }
    }
    Ok(())
}

// Where a read fails, no engine writes anything.
#[test]
fn a_first_read_fails(rt: HostRuntime) -> Result<(), Fail> {
    let alloc = rt.alloc();
    for words in &ENGINES {
        let mut reader = Watched::new(Halting {
            left: b"router 1 10.0.0.1\n",
            reads: 1,
        });
        let mut writer = Watched::new(Vec::new(alloc));
        let got = run_with(&rt, alloc, words, &mut reader, &mut writer);
        let out: Vec<u8> = writer.into_inner();
        assert!(rt; matches!(got, Err(IoStopped)));
        assert!(rt; out.is_empty());
    }
    Ok(())
}

#[test]
fn a_failure_has_its_status(rt: HostRuntime) -> Result<(), Fail> {
    assert!(rt; status_of(Err(IoStopped)) == 4);
    assert!(rt; status_of(Ok(1)) == 1);
    Ok(())
}

// What is written where there is room for so many octets, and the status.
fn written<R: Threads + Wait + Sync>(
    rt: &R,
    alloc: Global,
    row: &Row,
    (room, fails): (usize, bool),
) -> (Vec<u8>, Option<u8>) {
    let mut reader = Watched::new(row.input);
    let mut writer = Watched::new(Narrow {
        taken: Vec::new(alloc),
        room,
        fails,
    });
    let got = run_with(rt, alloc, row.words, &mut reader, &mut writer).ok();
    let Narrow { taken, .. } = writer.into_inner();
    (taken, got)
}

// Each write fails in turn, or takes nothing, until none does.
#[test]
fn a_write_fails(rt: HostRuntime) -> Result<(), Fail> {
    for row in &ROWS {
        for fails in [true, false] {
            for room in 0..=row.text.len() {
                let (taken, got) = written(&rt, rt.alloc(), row, (room, fails));
                let is_whole = room == row.text.len();
                assert!(rt; got == is_whole.then_some(row.status), "room for {room}");
                assert!(rt; Some(taken.as_slice()) == row.text.get(..room));
            }
        }
    }
    Ok(())
}

// The text of a wrong word is written by the same rule.
#[test]
fn a_write_of_the_usage_fails(rt: HostRuntime) -> Result<(), Fail> {
    let alloc = rt.alloc();
    let mut reader = Watched::new(b"".as_slice());
    let mut writer = Watched::new(Narrow {
        taken: Vec::new(alloc),
        room: 5,
        fails: true,
    });
    let got = run_with(&rt, alloc, &["encode"], &mut reader, &mut writer);
    let Narrow { taken, .. } = writer.into_inner();
    assert!(rt; matches!(got, Err(IoStopped)));
    assert!(rt; taken.as_slice() == b"error".as_slice());
    Ok(())
}
