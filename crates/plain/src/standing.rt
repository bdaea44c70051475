// Where a reading stands among the rooms and the open lists, and where a move leads from there.
ghost use Rattle.plain.specs.Nested.{Bounded};

use crate::lists::{ListKind, Lists};
use moves::rooms::{Next, Room};

// The room in which a code is awaited or was found, and the open lists. The ninth is open only where an agent may begin.
#[derive(Clone, Copy)]
pub struct Standing {
    pub room: Room,
    pub lists: Lists,
    ghost bounded: { Bounded room lists.depth },
}

impl Standing {
    ghost use Rattle.std.specs.Prelude.{◌≡◌};
    ghost use Rattle.meaning.specs.Editions.{go};
    ghost use Rattle.moves.specs.Words.{room_of, next_of};
    ghost use Rattle.moves.specs.declared.rooms.Next.TheVariants as nexts;
    ghost use Rattle.plain.specs.Lists.{state_of, Leads};

    // At envelope level.
    pub fn outer(room: Room) -> Standing
        ensures { (result.room ≡ room) × (result.lists.depth ≡ 0) }
    {
        Standing {
            room,
            lists: Lists::none(),
        }
    }

    // Takes where a move leads. Answers where reading stands behind it.
    pub fn behind(self, next: Next) -> Standing
        requires { Leads next self.lists }
        ensures { state_of result ≡ go (next_of next) (state_of self) }
    {
        match next {
            Next::Outer(room) => Standing::outer(room),
            Next::Inner(room) => Standing {
                room,
                lists: Lists::one(ListKind::Many),
            },
            Next::InnerOne => Standing {
                room: Room::OneAgent,
                lists: Lists::one(ListKind::One),
            },
            Next::Stay(room) => Standing {
                room,
                lists: self.lists,
            },
            Next::Deeper => self.in_resolvers(),
            Next::ListEnds => self.behind_list(),
            Next::AgentEnds => self.behind_agent(),
        }
    }

    // Into the resolvers of an agent: one level down. No agent stands at envelope level; a list there would be a parameter's.
    fn in_resolvers(self) -> Standing
        requires { Leads nexts.Deeper self.lists }
        ensures { state_of result ≡ go (next_of nexts.Deeper) (state_of self) }
    {
        if self.lists.level() == 0 {
            return Standing {
                room: Room::AgentList,
                lists: Lists::one(ListKind::Many),
            };
        }
        Standing {
            room: Room::AgentList,
            lists: self.lists.deeper(),
        }
    }

    // Behind a list: the agent whose resolvers it was, or the parameters.
    fn behind_list(self) -> Standing
        ensures { state_of result ≡ go (next_of nexts.ListEnds) (state_of self) }
    {
        match self.lists.innermost() {
            Some(ListKind::Resolvers) => Standing {
                room: Room::AfterResolvers,
                lists: self.lists.ended(),
            },
            _ => Standing::outer(Room::Parameters),
        }
    }

    // Behind an agent: the parameters, where it was the one of `from`, or the list that it stands in.
    fn behind_agent(self) -> Standing
        ensures { state_of result ≡ go (next_of nexts.AgentEnds) (state_of self) }
    {
        match self.lists.innermost() {
            Some(ListKind::One) => Standing::outer(Room::Parameters),
            _ => Standing {
                room: Room::AgentList,
                lists: self.lists,
            },
        }
    }
}
