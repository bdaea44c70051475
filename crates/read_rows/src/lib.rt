// The reader's first layer: a look at a byte, one value with its row, and runs of rows of one shape.
#![tactic(auto)]

pub mod look;
pub mod rows;
pub mod texts;
