// The inside of one envelope, row by row: what stands at its front, its parameters, and where it ends.
#![tactic(auto)]

pub mod body;
mod parameter;
mod parameters;
