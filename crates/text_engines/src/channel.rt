//! Readers and writers that remember whether they failed.
//!
//! The engines are written over [`Source`] and [`Sink`]: a clause can then say that an engine stopped only if a read or
//! a write failed. [`Watched`] makes either of any reader or writer of std.

ghost use Rattle.std.specs.Prelude.{◌≡◌, ℕ, ◌<◌, List, Option, Bool, true, false, length, IfOk, OnOk, OnErr};
ghost use Rattle.std.specs.Io.{ReadsAtMost, WritesAtMost};
ghost use Rattle.std.specs.Io.KnownBytes.{ReadConsumes, WriteAppends};

use std::io::{Read, Write};

/// A read or a write failed, or a write of something took no octet.
#[derive(Debug, Drop)]
pub struct IoStopped;

/// A source of octets, to read from.
pub trait Source {
    // The octets that reads will give from here on, if they are known.
    ghost remaining: { Self → Option (List ℕ) };

    // Whether a read failed.
    ghost failed: { Self → Bool };

    /// Reads some octets into the front of `buf`, and answers how many: none if there are no more,
    /// or if `buf` is empty.
    fn take(&mut self, buf: &mut [u8]) -> Result<usize, IoStopped>
        ensures bound { ReadsAtMost result buf.new }
        ensures bytes { ReadConsumes (remaining self.old) (remaining self.new) result buf.new }
        ensures ok { OnOk result (failed self.new ≡ failed self.old) }
        ensures err { OnErr result (failed self.new ≡ true) };
}

/// A sink of octets, to write to.
pub trait Sink {
    // The octets that were written, if they are known.
    ghost contents: { Self → Option (List ℕ) };

    // Whether a write failed, or took no octet of some.
    ghost failed: { Self → Bool };

    /// Writes a beginning of `buf`, and answers how many octets: at least one, unless `buf` is empty.
    fn put(&mut self, buf: &[u8]) -> Result<usize, IoStopped>
        ensures bound { WritesAtMost result buf.now }
        ensures bytes { WriteAppends (contents self.old) (contents self.new) result buf.now }
        ensures some { IfOk result (λ n. 0 < length buf.now → 0 < n) }
        ensures ok { OnOk result (failed self.new ≡ failed self.old) }
        ensures err { OnErr result (failed self.new ≡ true) };
}

/// A reader or a writer of std, and whether it failed.
#[derive(Drop)]
pub struct Watched<C> {
    inner: C,
    has_failed: bool,
}

impl<C> Watched<C> {
    /// A reader or writer that has not failed yet.
    pub fn new(inner: C) -> Watched<C>
        ensures inner { result.inner ≡ inner }
        ensures unfailed { result.has_failed ≡ false }
    {
        Watched {
            inner,
            has_failed: false,
        }
    }

    /// Whether a read or a write failed.
    pub fn has_failed(&self) -> bool
        ensures { result ≡ self.now.has_failed }
    {
        self.has_failed
    }

    /// The reader or writer of std.
    pub fn into_inner(self) -> C
        ensures { result ≡ self.inner }
    {
        self.inner
    }
}

impl<R: Read> Source for Watched<R> {
    ghost remaining = { λ s. R.remaining s.inner };

    ghost failed = { λ s. s.has_failed };

    fn take(&mut self, buf: &mut [u8]) -> Result<usize, IoStopped> {
        match self.inner.read(buf) {
            Ok(n) => Ok(n),
            Err(_) => {
                self.has_failed = true;
                Err(IoStopped)
            }
        }
    }
}

impl<W: Write> Sink for Watched<W> {
    ghost contents = { λ s. W.contents s.inner };

    ghost failed = { λ s. s.has_failed };

    fn put(&mut self, buf: &[u8]) -> Result<usize, IoStopped> {
        match self.inner.write(buf) {
            Ok(n) if n > 0 || buf.is_empty() => Ok(n),
            _ => {
                self.has_failed = true;
                Err(IoStopped)
            }
        }
    }
}
