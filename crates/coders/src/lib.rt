// Numbers and dates to and from plain values: "Number and date decoders answer 9 or 10 with the place in their own slice";
// "Encoders answer 9 or 10, place 0, for a value out of range, and then 16 for room."
#![tactic(auto)]

mod decimal;
pub mod decode;
pub mod encode;

ghost use Rattle.std.specs.Prelude.{◌≡◌};
ghost use Rattle.meaning.specs.Plain.{reach_of};
ghost use Rattle.coders.specs.Plain.{reached_by};

use table::kinds::Kind;

// A plain date: "the seven components and a designator, 0 for none".
#[repr(C)]
#[derive(Clone, Copy)]
pub struct Date {
    pub year: u32,
    pub month: u32,
    pub day: u32,
    pub hour: u32,
    pub minute: u32,
    pub second: u32,
    pub millisecond: u32,
    pub designator: u32,
}

// Takes a row's kind. Answers whether a date of it is held to the calendar, "kind 5, 6 or 7"; or that it is no date's.
fn is_absolute(kind: u32) -> Option<bool>
    ensures { reach_of kind ≡ reached_by result }
{
    match Kind::try_from(kind) {
        Ok(Kind::DateAbsolute) => Some(true),
        Ok(Kind::DateForward | Kind::DateBackward) => Some(false),
        _ => None,
    }
}
