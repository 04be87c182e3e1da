//! What a peer says of a prefix.

ghost use Rattle.std.specs.Prelude.{◌≡◌, ◌↔◌, [], IsTrue, IfOk, MatchOption};
ghost use Rattle.rib_tables.specs.Words.{announced_word, segments_word, nothing, path_in};

use bgp_codec::{Attrs, Segment, SegmentKind};
use ranked_policy::{Asn, Path, is_same_path};
use std::alloc::{AllocError, Global};

/// What a peer says of a prefix (RFC 4271 section 4.3, AS_PATH).
#[derive(Debug, Drop)]
pub enum Word {
    /// One AS_SEQUENCE: the announced path, the peer first. The empty path is the word of a withdrawal, and of a prefix
    /// that was never mentioned. An AS_SEQUENCE without numbers, which no message has, is the same.
    Sequence(Path),
    /// An AS_PATH that is not exactly one AS_SEQUENCE: a set, several segments, or none. It is a
    /// word, but gives no choice.
    Other,
}

impl Word {
    /// The path that the word gives; the empty path if it gives none.
    pub fn path(&self) -> &[Asn]
        ensures { result.now ≡ path_in self.now }
    {
        match self {
            Word::Sequence(path) => path.as_slice(),
            Word::Other => &[],
        }
    }

    /// Whether the word is the empty path, as after a withdrawal.
    pub fn is_nothing(&self) -> bool
        ensures { IsTrue result ↔ (self.now ≡ nothing) }
    {
        self.tells(&[])
    }

    /// Whether the word is exactly this path.
    pub fn tells(&self, numbers: &[Asn]) -> bool
        ensures { IsTrue result ↔ (self.now ≡ Word.Sequence numbers.now) }
    {
        match self {
            Word::Sequence(path) => is_same_path(path.as_slice(), numbers),
            Word::Other => false,
        }
    }
}

// The numbers of a path that is one AS_SEQUENCE.
fn sequence_of(segments: &[Segment]) -> Option<&[Asn]>
    ensures { MatchOption result (segments_word segments.now ≡ Word.Other)
        (λ numbers. segments_word segments.now ≡ Word.Sequence numbers.now) }
{
    match segments {
        [only] => match only.kind {
            SegmentKind::AsSequence => Some(only.numbers.as_slice()),
            SegmentKind::AsSet => None,
        },
        _ => None,
    }
}

// The word of these attributes for the prefixes that are announced with them.
pub(crate) fn announced(alloc: Global, attrs: &Attrs) -> Result<Word, AllocError>
    ensures { IfOk result (λ word. word ≡ announced_word attrs.now) }
{
    let Some(segments) = &attrs.path else {
        return Ok(Word::Other);
    };
    match sequence_of(segments.as_slice()) {
        Some(numbers) => Ok(Word::Sequence(Path::from_slice(alloc, numbers)?)),
        None => Ok(Word::Other),
    }
}
