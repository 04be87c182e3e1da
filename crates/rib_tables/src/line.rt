//! One word of each peer.

ghost use Rattle.std.specs.Prelude.{◌≡◌, ◌≢◌, ◌<◌, length, slice_get, slice_set, Some, IfOk, MatchOption};
ghost use Rattle.std.specs.List.{All};
ghost use Rattle.rib_tables.specs.Words.{nothing};

use crate::word::Word;
use ranked_policy::Path;
use std::alloc::{AllocError, Global};
use std::marker::Model;

/// One word of each peer, by the places of peers.
#[derive(Debug, Drop)]
pub struct Line {
    words: Vec<Word>,
}

impl Model for Line {
    ghost use Rattle.std.specs.Prelude.{List};
    ghost use Rattle.rib_tables.specs.declared.word.Word.{Word};

    ghost Value = { List Word };

    ghost view = { λ line. line.words.items };
}

impl Line {
    // A line in which no peer has said anything.
    pub(crate) fn new(alloc: Global, peers: usize) -> Result<Line, AllocError>
        ensures len { IfOk result (λ line. length line ≡ peers) }
        ensures silent { IfOk result (λ line. All (λ word. word ≡ nothing) line) }
    {
        let mut words = Vec::with_capacity(alloc, peers)?;
        for _ in 0..peers {
            words.push(Word::Sequence(Path::new(alloc)))?;
        }
        Ok(Line { words })
    }

    // The words.
    pub(crate) fn as_slice(&self) -> &[Word]
        ensures { result.now ≡ self.now }
    {
        self.words.as_slice()
    }

    // The word at a place. `None` if it is the empty path.
    pub(crate) fn something(&self, peer_at: usize) -> Option<&Word>
        requires { peer_at < length self.now }
        ensures { MatchOption result (slice_get self.now peer_at ≡ Some nothing)
            (λ word. (slice_get self.now peer_at ≡ Some word.now) × (word.now ≢ nothing)) }
    {
        let word = &self.words[peer_at];
        if word.is_nothing() {
            return None;
        }
        Some(word)
    }

    // Replaces the word at a place.
    pub(crate) fn set(&mut self, peer_at: usize, word: Word)
        requires { peer_at < length self.old }
        ensures { self.new ≡ slice_set self.old peer_at word }
    {
        self.words[peer_at] = word;
    }
}
