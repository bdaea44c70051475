// A whole header, envelope by envelope: identifier and length, the envelope's own row, its inside, and the next one.
#![tactic(auto)]

pub mod envelope;
pub mod header;
pub mod insides;
