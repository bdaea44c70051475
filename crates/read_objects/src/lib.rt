// The objects that stand in an envelope: a received object, an agent and a list of agents.
#![tactic(auto)]

pub mod agents;
pub mod received;
