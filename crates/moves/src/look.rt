// The move at a byte: `look` over the moves of an edition's room.
ghost use Rattle.std.specs.Prelude.{◌≡◌};
ghost use Rattle.meaning.specs.Editions.{moves};
ghost use Rattle.meaning.specs.Reading.{look};
ghost use Rattle.table.specs.Told.{edition_of};
ghost use Rattle.moves.specs.Words.{room_of, found_of};

use crate::agents::{after_addresses, after_name, after_resolvers, agent_list, one_agent};
use crate::parameters::parameter;
use crate::received::{after_date, after_from, after_id, after_via};
use crate::rooms::{Move, Next, Room};
use crate::shapes::{any, date, representation, texts};
use table::kinds::Kind;
use table::told::Edition;
use values::text::Rule;

// Takes an edition, a room and a byte. Answers the room's move with that code, else its move with no code, or that it has neither.
pub fn move_at(edition: Edition, room: Room, b: u8) -> Option<Move>
    ensures { found_of b result ≡ look b (moves (edition_of edition) (room_of room)) }
{
    let back = Next::Outer(Room::Parameters);
    match room {
        Room::ReceivedBegins => Some(Move::Uncoded(
            Kind::ReceivedBy,
            Rule::Line,
            Next::Inner(Room::ReceivedDate),
        )),
        Room::HeadRepresentation => representation(b, Next::Outer(Room::HeadDate)),
        Room::HeadDate => date(edition, b, back),
        Room::Parameters => parameter(edition, b),
        Room::OwnText => Some(Move::Uncoded(Kind::OwnValue, Rule::Note, back)),
        Room::ParameterRepresentation => representation(b, back),
        Room::BehaviourValue => any(b, back),
        Room::EncryptedTexts => texts(
            b,
            Kind::EncryptedItem,
            Next::Outer(Room::EncryptedTexts),
            back,
        ),
        Room::ReceivedDate => date(edition, b, Next::Stay(Room::AfterDate)),
        Room::AfterDate => after_date(edition, b),
        Room::AfterFrom => after_from(edition, b),
        Room::AfterId => after_id(edition, b),
        Room::AfterVia => after_via(edition, b),
        Room::ReceivedExtra => any(b, Next::Stay(Room::AfterVia)),
        Room::AgentList => agent_list(b),
        Room::OneAgent => one_agent(b),
        Room::AfterName => after_name(edition, b),
        Room::AddressTexts => texts(
            b,
            Kind::Address,
            Next::Stay(Room::AddressTexts),
            Next::Stay(Room::AfterAddresses),
        ),
        Room::AfterAddresses => after_addresses(edition, b),
        Room::AfterResolvers => after_resolvers(edition, b),
        Room::AgentExtra => any(b, Next::Stay(Room::AfterResolvers)),
        Room::Closed => None,
    }
}
