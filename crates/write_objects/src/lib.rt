// The objects inside an envelope: received objects, and agents with their resolvers.
#![tactic(auto)]

pub mod agents;
pub mod received;
