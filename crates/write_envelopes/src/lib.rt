// A table's envelopes: the pass that checks and measures them, and the pass that writes them; and a table of one extension.
#![tactic(auto)]

pub mod envelope;
pub mod extension;
pub mod measure;
