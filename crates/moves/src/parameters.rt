// "Parameters, any order, repeats allowed", and the 01 that closes the envelope.
ghost use Rattle.std.specs.Prelude.{◌≡◌, [], ◌∷◌, ◌++◌};
ghost use Rattle.meaning.specs.Editions.{parameters, shared, own_parameters};
ghost use Rattle.meaning.specs.Reading.{look};
ghost use Rattle.table.specs.Told.{edition_of};
ghost use Rattle.moves.specs.Words.{found_of};

use crate::rooms::{Form, Move, Next, Room};
use table::kinds::Kind;
use table::told::Edition;
use values::text::Rule;

// The move at a parameter's code.
pub fn parameter(edition: Edition, b: u8) -> Option<Move>
    ensures { found_of b result ≡ look b (shared parameters ++ own_parameters (edition_of edition)) }
{
    let back = Next::Outer(Room::Parameters);
    match b {
        0x00 => Some(Move::line(Kind::OwnKey, Next::Outer(Room::OwnText))),
        0x02 => Some(Move::opens(Kind::ToOpens, Next::Inner(Room::AgentList))),
        0x03 => Some(Move::opens(Kind::FromOpens, Next::InnerOne)),
        0x04 => Some(Move::Quiet(Next::Outer(Room::ParameterRepresentation))),
        0x05 => Some(Move::note(Kind::Comments, back)),
        0x06 => Some(Move::Coded(Kind::PayloadLength, Form::Number, back)),
        0x07 => Some(Move::line(Kind::PayloadEncoding, back)),
        0x09 => Some(Move::opens(Kind::ReceiverOpens, Next::Inner(Room::AgentList))),
        0x0a => Some(Move::Quiet(Next::Outer(Room::ReceivedBegins))),
        0x0b => Some(Move::opens(Kind::BehaviourOpens, Next::Outer(Room::BehaviourValue))),
        0x01 => Some(Move::Quiet(Next::Outer(Room::Closed))),
        _ => own_parameter(edition, b),
    }
}

// "08 encrypted, texts then 01 (B only)".
fn own_parameter(edition: Edition, b: u8) -> Option<Move>
    ensures { found_of b result ≡ look b (own_parameters (edition_of edition)) }
{
    match (edition, b) {
        (Edition::B, 0x08) => {
            Some(Move::opens(Kind::EncryptedOpens, Next::Outer(Room::EncryptedTexts)))
        }
        _ => None,
    }
}
