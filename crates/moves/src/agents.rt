// "Agent: 02, name text, optionally 02 and addresses (texts, then 01), optionally 03 and resolvers (an agent list), extras, 01. Agent list: agents,
// then 01": each room of an agent has the moves of the next one and its own.
ghost use Rattle.std.specs.Prelude.{◌≡◌, [], ◌∷◌, ◌++◌};
ghost use Rattle.meaning.specs.Editions.{agent_list, one_agent, after_name, after_addresses, after_resolvers, shared, agent_extras};
ghost use Rattle.meaning.specs.Reading.{look};
ghost use Rattle.table.specs.Told.{edition_of};
ghost use Rattle.moves.specs.Words.{found_of};

use crate::rooms::{Move, Next, Room};
use table::codes::agent_extra;
use table::kinds::Kind;
use table::told::Edition;

// Where an agent of a list may begin.
pub fn agent_list(b: u8) -> Option<Move>
    ensures { found_of b result ≡ look b (shared agent_list) }
{
    match b {
        0x02 => Some(Move::line(Kind::AgentName, Next::Stay(Room::AfterName))),
        0x01 => Some(Move::Quiet(Next::ListEnds)),
        _ => None,
    }
}

// Where the one agent of `from` begins.
pub fn one_agent(b: u8) -> Option<Move>
    ensures { found_of b result ≡ look b (shared one_agent) }
{
    match b {
        0x02 => Some(Move::line(Kind::AgentName, Next::Stay(Room::AfterName))),
        _ => None,
    }
}

// After an agent's name.
pub fn after_name(edition: Edition, b: u8) -> Option<Move>
    ensures { found_of b result ≡ look b (shared after_name ++ agent_extras (edition_of edition)) }
{
    match b {
        0x02 => Some(Move::opens(Kind::AddressesOpen, Next::Stay(Room::AddressTexts))),
        _ => after_addresses(edition, b),
    }
}

// After its addresses.
pub fn after_addresses(edition: Edition, b: u8) -> Option<Move>
    ensures { found_of b result ≡ look b (shared after_addresses ++ agent_extras (edition_of edition)) }
{
    match b {
        0x03 => Some(Move::opens(Kind::ResolversOpen, Next::Deeper)),
        _ => after_resolvers(edition, b),
    }
}

// After its resolvers: extras, and the 01.
pub fn after_resolvers(edition: Edition, b: u8) -> Option<Move>
    ensures { found_of b result ≡ look b (shared after_resolvers ++ agent_extras (edition_of edition)) }
{
    match b {
        0x01 => Some(Move::Quiet(Next::AgentEnds)),
        _ => extra(edition, b),
    }
}

// "Extra: code 04 in B, 05 in D."
fn extra(edition: Edition, b: u8) -> Option<Move>
    ensures { found_of b result ≡ look b (agent_extras (edition_of edition)) }
{
    if b == agent_extra(edition) {
        return Some(Move::line(Kind::ExtraKey, Next::Stay(Room::AgentExtra)));
    }
    None
}
