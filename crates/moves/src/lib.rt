// The editions' tables as code: the move at a byte of a room, and the refusal where a room has none.
#![tactic(auto, unfolding(meaning::specs::Reading::look, meaning::specs::Reading::find, meaning::specs::Editions::shared, meaning::specs::Editions::own, meaning::specs::Editions::moves))]

pub mod agents;
pub mod look;
pub mod parameters;
pub mod received;
pub mod rooms;
pub mod shapes;
