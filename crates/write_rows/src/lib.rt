// One row of a table as bytes: laid or only counted, checked against its form, alone or in runs of one form.
#![tactic(auto)]

pub mod advance;
pub mod ahead;
pub mod any;
pub mod dates;
pub mod extras;
pub mod lay;
pub mod lent;
pub mod representation;
pub mod texts;
mod value;
