// Order 7, "the row after all that belongs to it": which rows belong to a row, and where they end. Skip numbers are laid over rows that were read
// by the crate `lay_skips`, and held against rows that are to be written by `hold_skips`.
#![tactic(auto)]

pub mod class;
pub mod hop;
pub mod owner;
