//! A writer that keeps the last octets that it wrote.

ghost use Rattle.std.specs.Prelude.{◌≡◌, ◌≢◌, ◌-◌, ◌<◌, ◌≤◌, ◌⊎◌, ◌++◌, ℕ, length, take, drop, replicate, slice_index, IfOk, OnOk, OnErr, true};
ghost use Rattle.std.specs.Io.{WritesAtMost};
ghost use Rattle.std.specs.Io.KnownBytes.{WriteAppends};
ghost use Rattle.error_words.specs.declared.ending.TheConstants.{KEPT};

use text_engines::{IoStopped, Sink};

// How many octets at the end of the output are kept: as many as the longest message has in hex, with its line end.
const KEPT: usize = 8193;

/// A writer that keeps the last octets that it wrote.
#[derive(Drop)]
pub struct Ending<T> {
    inner: T,
    last: [u8; KEPT],
}

// The first place from which on no octet ends a line.
fn last_start(text: &[u8]) -> usize
    ensures bound { result ≤ length text.now }
    ensures behind { (k : ℕ) → result ≤ k → k < length text.now → slice_index text.now k ≢ 10 }
    ensures first { 0 < result → slice_index text.now (result - 1) ≡ 10 }
{
    let mut at = text.len();
    while at > 0 && text[at - 1] != b'\n' {
        at -= 1;
    }
    at
}

// The octets behind the last line end.
fn last_line(text: &[u8]) -> &[u8]
    ensures bound { length result.now ≤ length text.now }
    ensures back { result.now ≡ drop (length text.now - length result.now) text.now }
    ensures one { (k : ℕ) → length text.now - length result.now ≤ k → k < length text.now
        → slice_index text.now k ≢ 10 }
    ensures first { length result.now < length text.now
        → slice_index text.now (length text.now - length result.now - 1) ≡ 10 }
{
    let (_, line) = text.split_at(last_start(text));
    line
}

// Pushes octets to the end, fewer than there are: as many leave the front.
fn push_few(last: &mut [u8], octets: &[u8])
    requires { length octets.now ≤ length last.old }
    ensures { last.new ≡ drop (length octets.now) (last.old ++ octets.now) }
{
    let end = last.len() - octets.len();
    last.rotate_left(octets.len());
    last[end..].copy_from_slice(octets);
}

// Pushes octets to the end, as many as there are or more: the last of them are left.
fn push_many(last: &mut [u8], octets: &[u8])
    requires { length last.old ≤ length octets.now }
    ensures { last.new ≡ drop (length octets.now) (last.old ++ octets.now) }
{
    let (_, back) = octets.split_at(octets.len() - last.len());
    last.copy_from_slice(back);
}

impl<T> Ending<T> {
    /// A writer that wrote nothing yet.
    pub fn new(inner: T) -> Ending<T>
        ensures inner { result.inner ≡ inner }
        // Line ends: the first line that is written is then a line behind one.
        ensures last { result.last ≡ replicate KEPT 10 }
    {
        Ending {
            inner,
            last: [b'\n'; KEPT],
        }
    }

    /// The line that was written last, if it has an end, without that end. It goes from the line
    /// end before it on, as far as it is kept.
    pub fn line(&self) -> &[u8]
        ensures back { result.now ≡ drop (8192 - length result.now) (take 8192 self.now.last) }
        ensures one { (k : ℕ) → 8192 - length result.now ≤ k → k < 8192 → slice_index (take 8192 self.now.last) k ≢ 10 }
        ensures first { length result.now < 8192 → slice_index (take 8192 self.now.last) (8192 - length result.now - 1) ≡ 10 }
    {
        let (text, _) = self.last.split_at(KEPT - 1);
        last_line(text)
    }

    /// The writer.
    pub fn into_inner(self) -> T
        ensures { result ≡ self.inner }
    {
        self.inner
    }

    // Keeps the last of these octets, behind what was kept.
    fn keep(&mut self, octets: &[u8])
        ensures last { self.new.last ≡ drop (length octets.now) (self.old.last ++ octets.now) }
        ensures inner { self.new.inner ≡ self.old.inner }
    {
        if octets.len() < KEPT {
            push_few(&mut self.last, octets);
        } else {
            push_many(&mut self.last, octets);
        }
    }
}

impl<T: Sink> Sink for Ending<T> {
    ghost contents = { λ s. T.contents s.inner };

    ghost failed = { λ s. T.failed s.inner };

    fn put(&mut self, buf: &[u8]) -> Result<usize, IoStopped>
        ensures bound { WritesAtMost result buf.now }
        ensures bytes { WriteAppends (T.contents self.old.inner) (T.contents self.new.inner) result buf.now }
        ensures some { IfOk result (λ n. 0 < length buf.now → 0 < n) }
        ensures ok { OnOk result (T.failed self.new.inner ≡ T.failed self.old.inner) }
        ensures err { OnErr result (T.failed self.new.inner ≡ true) }
        // The last octets that were written are kept.
        ensures last { IfOk result (λ n. self.new.last ≡ drop n (self.old.last ++ take n buf.now)) }
    {
        let n = self.inner.put(buf)?;
        let (written, _) = buf.split_at(n);
        self.keep(written);
        Ok(n)
    }
}
