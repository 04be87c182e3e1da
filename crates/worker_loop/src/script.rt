//! A gate that reads a list.

ghost use Rattle.std.specs.Prelude.{◌≡◌, []};
ghost use Rattle.worker_loop.specs.Script.{chore_at, given_by};

use crate::chore::Chore;
use crate::traits::Gate;
use std::sync::Wait;

/// A gate that gives the first chore that is listed for a turn, else a Turn.
#[derive(Debug, Drop)]
pub struct ScriptGate {
    script: Vec<(u32, Chore)>,
    count: u64,
}

impl ScriptGate {
    /// A gate that has given nothing of the script yet. It takes no memory.
    pub fn new(script: Vec<(u32, Chore)>) -> ScriptGate
        ensures nothing { given_by result ≡ [] }
        ensures script { result.script.items ≡ script.items }
    {
        ScriptGate { script, count: 0 }
    }
}

// The first chore that is listed for a turn, else a Turn.
fn chore_at(script: &[(u32, Chore)], turn: u32) -> Chore
    ensures { result ≡ chore_at script.now turn }
{
    for line in script {
        if line.0 == turn {
            return line.1;
        }
    }
    Chore::Turn
}

// How far behind a turn the next one stands that the script names.
fn turns_from(script: &[(u32, Chore)], turn: u32) -> u32 {
    let mut least = u32::MAX;
    for line in script {
        if line.0 >= turn && line.0 - turn < least {
            least = line.0 - turn;
        }
    }
    least
}

impl Gate for ScriptGate {
    ghost use Rattle.std.specs.Prelude.{List, ℕ};
    ghost use Rattle.worker_loop.specs.declared.chore.Chore.{Chore};

    ghost Script = { List (ℕ × Chore) };

    ghost script = { λ g. g.script.items };

    ghost given = { given_by };

    fn next<R: Wait>(&mut self, _rt: &R, turn: u32) -> Chore {
        self.count = u64::from(turn) + 1;
        chore_at(self.script.as_slice(), turn)
    }

    fn turns_from(&self, turn: u32) -> u32 {
        turns_from(self.script.as_slice(), turn)
    }
}
