// "Representation: 10, 11 or 12, or 00 and a text."
ghost use Rattle.meaning.specs.Told.{Told};
ghost use Rattle.meaning.specs.Editions.{representations};
ghost use Rattle.values.specs.Stages.{Within, CodedAt};

use crate::{Value, text};
use table::kinds::Kind;
use table::refusals::Refusal;

// A representation from its code on; the standard ones are the code itself.
pub fn take(s: &[u8], at: usize) -> Value
    requires { Within s.now at }
    ensures { (t : Told) → CodedAt t representations 7 s.now at result }
{
    let end = s.len();
    if end <= at {
        return Value::Refused(Refusal::EnvelopeEnds.at(at));
    }
    let code = s[at];
    let first = at + 1;
    match code {
        0x00 => text::rare_line(s, first, Kind::OwnRepresentation as u32),
        0x10 | 0x11 | 0x12 => Value::Is {
            kind: Kind::StandardRepresentation as u32,
            start: at,
            length: 1,
            after: first,
        },
        _ => Value::Refused(Refusal::CodeWrong.at(at)),
    }
}
