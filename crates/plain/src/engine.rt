// The engine's state and its step.
ghost use Rattle.std.specs.Prelude.{◌<◌, length};
ghost use Rattle.laws_steps.specs.Pouring.{header_most};
ghost use Rattle.table.specs.Told.{told_of};
ghost use Rattle.plain.specs.Steps.{Holds, Steps};

use crate::feed::{Fed, Taking};
use crate::standing::Standing;
use table::told::Told;

// Where the engine stands, and the value that is being taken there; where none is, a code is awaited.
#[derive(Clone, Copy)]
pub struct Engine {
    pub standing: Standing,
    pub taking: Option<Taking>,
}

impl Engine {
    // One step: what the byte at a place does in this state.
    pub fn step(self, told: Told, s: &[u8], at: usize) -> Fed
        requires { (Holds self at) × (at < length s.now) × (at < header_most) }
        ensures { Steps self (told_of told) s.now at result }
    {
        match self.taking {
            None => self.standing.code_step(told, s, at),
            Some(taking) => taking.feed(told, s, at),
        }
    }
}
