// The plain engine: a second reader in which no function calls itself. One step a byte; the open lists stand in an array.
#![tactic(auto)]

pub mod codes;
pub mod engine;
pub mod feed;
pub mod header;
pub mod lists;
pub mod read;
pub mod run;
pub mod standing;
pub mod state;
