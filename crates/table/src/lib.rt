// What reader, writer and listing share: document 01's numbers by name, what a reading is told, what stages answer, and rows in lent memory.
#![tactic(auto)]

pub mod answers;
pub mod codes;
pub mod kinds;
pub mod limits;
pub mod parameters;
pub mod refusals;
pub mod reply;
pub mod rows;
pub mod told;
