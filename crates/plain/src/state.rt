// The state in which an envelope's inside begins, and the states that follow.
ghost use Rattle.std.specs.Prelude.{◌≡◌, None, Some};
ghost use Rattle.meaning.specs.Editions.{go};
ghost use Rattle.moves.specs.Words.{next_of};
ghost use Rattle.plain.specs.Lists.{state_of, Leads};
ghost use Rattle.plain.specs.Steps.{Begins};

pub use crate::engine::Engine;
use crate::feed::Taking;
use crate::standing::Standing;
use moves::rooms::{Next, Room};

impl Engine {
    // Where an envelope's inside begins.
    pub fn begin(base: bool) -> Engine
        ensures { Begins base result }
    {
        let room = if base {
            Room::HeadRepresentation
        } else {
            Room::ReceivedBegins
        };
        Engine {
            standing: Standing::outer(room),
            taking: None,
        }
    }

    // The state in which a value is taken further.
    pub fn taken_on(self, taking: Taking) -> Engine
        ensures { result ≡ record { standing = self.standing; taking = Some taking } }
    {
        Engine {
            standing: self.standing,
            taking: Some(taking),
        }
    }

    // The state behind a move.
    pub fn behind(self, next: Next) -> Engine
        requires { Leads next self.standing.lists }
        ensures { (result.taking ≡ None) × (state_of result.standing ≡ go (next_of next) (state_of self.standing)) }
    {
        Engine {
            standing: self.standing.behind(next),
            taking: None,
        }
    }
}
