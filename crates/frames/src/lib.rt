// An envelope's identifier and length, and how many envelopes a header has: what every reading of a header begins with.
#![tactic(auto)]

pub mod count;
pub mod frame;
