//! A reader that keeps the front of its input.

ghost use Rattle.std.specs.Prelude.{◌≡◌, ◌≤◌, ◌⊎◌, ◌++◌, [], take, vec_len, IfOk, OnOk, OnErr, true};
ghost use Rattle.std.specs.Io.{ReadsAtMost};
ghost use Rattle.std.specs.Io.KnownBytes.{ReadConsumes};

use std::alloc::Global;
use text_engines::{IoStopped, Source};

/// A reader that keeps the front of what it gave, up to a bound. If a growth for it is refused, it keeps nothing from
/// then on.
#[derive(Drop)]
pub struct Kept<S> {
    inner: S,
    text: Vec<u8>,
    most: usize,
    ghost bounded: { vec_len text ≤ most },
}

impl<S> Kept<S> {
    /// A reader that keeps at most `most` octets, and gave none yet.
    pub fn new(alloc: Global, inner: S, most: usize) -> Kept<S>
        ensures inner { result.inner ≡ inner }
        ensures most { result.most ≡ most }
        ensures text { result.text.items ≡ [] }
    {
        Kept {
            inner,
            text: Vec::new(alloc),
            most,
        }
    }

    /// The front of the input that is kept.
    pub fn text(&self) -> &[u8]
        ensures { result.now ≡ self.now.text.items }
    {
        self.text.as_slice()
    }

    /// The reader.
    pub fn inner(&self) -> &S
        ensures { result.now ≡ self.now.inner }
    {
        &self.inner
    }

    // Keeps octets that were given, up to the bound.
    fn keep(&mut self, octets: &[u8])
        ensures text { self.new.text.items ≡ take self.new.most (self.old.text.items ++ octets.now) }
        ensures most { (self.new.most ≡ self.old.most) ⊎ (self.new.most ≡ 0) }
        ensures inner { self.new.inner ≡ self.old.inner }
    {
        let room = self.most - self.text.len();
        let (front, _) = octets.split_at(room.min(octets.len()));
        if self.text.extend_from_slice(front).is_err() {
            self.text.clear();
            self.most = 0;
        }
    }
}

impl<S: Source> Source for Kept<S> {
    ghost remaining = { λ s. S.remaining s.inner };

    ghost failed = { λ s. S.failed s.inner };

    fn take(&mut self, buf: &mut [u8]) -> Result<usize, IoStopped>
        ensures bound { ReadsAtMost result buf.new }
        ensures bytes { ReadConsumes (S.remaining self.old.inner) (S.remaining self.new.inner) result buf.new }
        ensures ok { OnOk result (S.failed self.new.inner ≡ S.failed self.old.inner) }
        ensures err { OnErr result (S.failed self.new.inner ≡ true) }
        // The octets that are given are kept, up to the bound; a refused growth makes the bound 0.
        ensures kept { IfOk result
            (λ n. self.new.text.items ≡ take self.new.most (self.old.text.items ++ take n buf.new)) }
        ensures most { IfOk result (λ n. (self.new.most ≡ self.old.most) ⊎ (self.new.most ≡ 0)) }
    {
        let n = self.inner.take(buf)?;
        let (given, _) = buf.split_at(n);
        self.keep(given);
        Ok(n)
    }
}
