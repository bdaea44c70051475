// The values of an envelope: the stages that take one off the input.
#![tactic(auto)]

pub mod any;
pub mod bytes;
pub mod digits;
pub mod number;
pub mod representation;
pub mod text;

use table::answers::Fault;

// "either a value with the place after it, or a refusal": a row's kind, start and length, or document 01's number and place. The kind is its number, as a row
// has it, since a text is taken for any.
#[derive(Drop)]
pub enum Value {
    Is {
        kind: u32,
        start: usize,
        length: usize,
        after: usize,
    },
    Refused(Fault),
}
