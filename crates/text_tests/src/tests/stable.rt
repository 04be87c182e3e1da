//! How many stable assignments a small network has, among all that give each router one of three paths.

use std::alloc::{AllocError, Global};
use std::process::Abort;
use std::test::Fail;
use text_engines::{CheckEngine, Watched, answer_input};

// A network, whose router 1 has its own path, the other routers, each with the paths that it may be given, and how many
// of the assignments are stable.
struct Counted {
    network: &'static str,
    choices: &'static [(&'static str, [&'static str; 3])],
    assignments: usize,
    stable: usize,
}

static COUNTED: [Counted; 5] = [
    // Shortest paths.
    Counted {
        network: "router 1 10.0.0.1\nrouter 2 10.0.0.2\nrouter 3 10.0.0.3\nrouter 4 10.0.0.4\n\
            link 1 2\nlink 2 4\nlink 1 3\nlink 3 4\norigin 1 10.1.0.0/16\nassignment\n",
        choices: &[
            ("2", ["none", "2-1", "2-4-3-1"]),
            ("3", ["none", "3-1", "3-4-2-1"]),
            ("4", ["none", "4-2-1", "4-3-1"]),
        ],
        assignments: 27,
        stable: 1,
    },
    // The good gadget.
    Counted {
        network: "router 1 10.0.0.1\nrouter 2 10.0.0.2\nrouter 3 10.0.0.3\nrouter 4 10.0.0.4\n\
            router 5 10.0.0.5\nlink 1 2\nlink 1 3\nlink 1 4\nlink 2 4\nlink 3 2\nlink 5 3\nlink 5 4\n\
            origin 1 10.1.0.0/16\nrank 2 10.1.0.0/16 2-4-1 2-1\nrank 3 10.1.0.0/16 3-2-1 3-1\n\
            rank 4 10.1.0.0/16 4-1\nrank 5 10.1.0.0/16 5-4-1 5-3-1\nassignment\n",
        choices: &[
            ("2", ["none", "2-4-1", "2-1"]),
            ("3", ["none", "3-2-1", "3-1"]),
            ("4", ["none", "4-1", "4-2-1"]),
            ("5", ["none", "5-4-1", "5-3-1"]),
        ],
        assignments: 81,
        stable: 1,
    },
    // DISAGREE.
    Counted {
        network: "router 1 10.0.0.1\nrouter 2 10.0.0.2\nrouter 3 10.0.0.3\n\
            link 1 2\nlink 1 3\nlink 2 3\norigin 1 10.1.0.0/16\n\
            rank 2 10.1.0.0/16 2-3-1 2-1\nrank 3 10.1.0.0/16 3-2-1 3-1\nassignment\n",
        choices: &[
            ("2", ["none", "2-3-1", "2-1"]),
            ("3", ["none", "3-2-1", "3-1"]),
        ],
        assignments: 9,
        stable: 2,
    },
    // The ring.
    Counted {
        network: "router 1 10.0.0.1\nrouter 2 10.0.0.2\nrouter 3 10.0.0.3\nrouter 4 10.0.0.4\n\
            link 1 2\nlink 1 3\nlink 1 4\nlink 2 3\nlink 3 4\nlink 4 2\norigin 1 10.1.0.0/16\n\
            rank 2 10.1.0.0/16 2-3-1 2-1\nrank 3 10.1.0.0/16 3-4-1 3-1\n\
            rank 4 10.1.0.0/16 4-2-1 4-1\nassignment\n",
        choices: &[
            ("2", ["none", "2-3-1", "2-1"]),
            ("3", ["none", "3-4-1", "3-1"]),
            ("4", ["none", "4-2-1", "4-1"]),
        ],
        assignments: 27,
        stable: 0,
    },
    // The backup link.
    Counted {
        network: "router 1 10.0.0.1\nrouter 2 10.0.0.2\nrouter 3 10.0.0.3\nrouter 4 10.0.0.4\n\
            link 1 4\nlink 1 2\nlink 2 3\nlink 3 4\norigin 1 10.1.0.0/16\n\
            rank 2 10.1.0.0/16 2-3-4-1 2-1\nrank 3 10.1.0.0/16 3-2-1 3-4-1\n\
            rank 4 10.1.0.0/16 4-1 4-3-2-1\nassignment\n",
        choices: &[
            ("2", ["none", "2-3-4-1", "2-1"]),
            ("3", ["none", "3-2-1", "3-4-1"]),
            ("4", ["none", "4-1", "4-3-2-1"]),
        ],
        assignments: 27,
        stable: 2,
    },
];

// The assignment with this number: each router has the path that the next digit of the number to the
// base of three names.
fn assignment(alloc: Global, counted: &Counted, number: usize) -> Result<String, AllocError> {
    let network = counted.network;
    let mut input = format!(in alloc; "{network}path 1 10.1.0.0/16 1\n")?;
    let mut digits = number;
    for (router, paths) in counted.choices {
        let path = paths[digits % 3];
        let line = format!(in alloc; "path {router} 10.1.0.0/16 {path}\n")?;
        input.push_str(line.as_str())?;
        digits /= 3;
    }
    Ok(input)
}

// Whether `check` says that this assignment is stable.
fn is_stable(alloc: Global, input: &str) -> bool {
    let mut reader = Watched::new(input.as_bytes());
    let mut writer = Watched::new(Vec::new(alloc));
    let status = answer_input(
        alloc,
        &CheckEngine { lists_all: false },
        &mut reader,
        &mut writer,
    )
    .ok();
    let out: Vec<u8> = writer.into_inner();
    out.as_slice() == b"stable\n".as_slice() && status == Some(0)
}

// How many assignments of the network are stable.
fn count_stable(alloc: Global, counted: &Counted) -> Result<usize, AllocError> {
    let mut count = 0usize;
    for number in 0..counted.assignments {
        let input = assignment(alloc, counted, number)?;
        if is_stable(alloc, input.as_str()) {
            count = count.saturating_add(1);
        }
    }
    Ok(count)
}

fn expect_counts(rt: &impl Abort, alloc: Global) -> Result<(), Fail> {
    for counted in &COUNTED {
        let count = count_stable(alloc, counted)?;
        assert!(rt; count == counted.stable, "{}", counted.network);
    }
    Ok(())
}

#[test]
fn stable_assignments_are_counted(rt: HostRuntime) -> Result<(), Fail> {
    expect_counts(&rt, rt.alloc())
}
