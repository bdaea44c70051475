// Order 13, the month's figures, in lent memory: of each edition the messages accepted, those refused by 2 to 13, envelopes and header bytes of those accepted;
// then the messages of an unknown edition.
#![tactic(auto)]

ghost use Rattle.std.specs.Prelude.{◌≡◌};
ghost use Rattle.figures.specs.Stages.{fault_figured};

use table::answers::Fault;

pub mod add;
pub mod join;
pub mod judge;
pub mod report;

// An answer and its place: 0 at 0, or at the bytes written; or a refusal.
#[repr(C)]
#[derive(Drop)]
pub struct Figured {
    pub answer: u32,
    pub place: usize,
}

impl From<Fault> for Figured {
    ghost from_gives = { λ fault r. r ≡ fault_figured fault };

    fn from(fault: Fault) -> Self {
        Figured {
            answer: fault.refusal.answer(),
            place: fault.at,
        }
    }
}
