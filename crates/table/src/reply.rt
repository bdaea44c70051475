// "The reader gives answer, place, row count"; the writer too.
ghost use Rattle.std.specs.Prelude.{◌≡◌};
ghost use Rattle.table.specs.Reply.{reply_of, fault_reply};

use crate::answers::Fault;

#[repr(C)]
#[derive(Drop)]
pub struct Reply {
    pub answer: u32,
    pub place: usize,
    pub rows: usize,
}

impl From<Fault> for Reply {
    ghost from_gives = { λ fault r. reply_of r ≡ fault_reply fault };

    // "Refusals report 0 rows".
    fn from(fault: Fault) -> Self {
        Reply {
            answer: fault.refusal.answer(),
            place: fault.at,
            rows: 0,
        }
    }
}
