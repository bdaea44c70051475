// What the stages of reader and writer answer.
ghost use Rattle.std.specs.Prelude.{◌≡◌, ◌+◌, ◌≤◌};
ghost use Rattle.table.specs.Rows.{u32_most};

use crate::refusals::Refusal;

// "a refusal": document 01's number and place. The place is first, where a `Reached` has its own: docs/DECISIONS.md,
// "Answers in registers".
#[derive(Clone, Copy)]
pub struct Fault {
    pub at: usize,
    pub refusal: Refusal,
}

// How far a reading has come: the place, and the count of rows so far.
#[derive(Clone, Copy)]
pub struct Reached {
    pub at: usize,
    pub rows: usize,
}

impl Reached {
    // Behind the byte at this place, which has no row of its own.
    pub fn passed(self) -> Reached
        requires { self.at ≤ u32_most }
        ensures at { result.at ≡ self.at + 1 }
        ensures rows { result.rows ≡ self.rows }
    {
        Reached {
            at: self.at + 1,
            rows: self.rows,
        }
    }
}

// "either a value with the place after it, or a refusal": what a stage of the reader answers, which the stage above takes apart with let .. else.
// An enum of its own and no Result, as document 01 names it.
#[derive(Drop)]
pub enum Stage {
    Go(Reached),
    Refused(Fault),
}

impl Refusal {
    // This refusal, at a place.
    pub fn at(self, at: usize) -> Fault
        ensures { result ≡ record { refusal = self; at = at } }
    {
        Fault {
            refusal: self,
            at: at,
        }
    }
}
