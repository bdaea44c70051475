// The inside of one envelope, as rows in lent memory.
#![tactic(auto)]

pub mod inside;
mod parameters;
