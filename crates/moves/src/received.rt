// "Received object: by (text), date, then optionally and in this order 02 from, 03 id, 04 via (texts), then in D extras, then 01": the moves after the
// date. Each room has those of the next one and its own.
ghost use Rattle.std.specs.Prelude.{◌≡◌, [], ◌∷◌, ◌++◌};
ghost use Rattle.meaning.specs.Editions.{after_date, after_from, after_id, after_via, shared, received_extras};
ghost use Rattle.meaning.specs.Reading.{look};
ghost use Rattle.table.specs.Told.{edition_of};
ghost use Rattle.moves.specs.Words.{found_of};

use crate::rooms::{Move, Next, Room};
use table::codes::received_extra;
use table::kinds::Kind;
use table::told::Edition;

// After the date.
pub fn after_date(edition: Edition, b: u8) -> Option<Move>
    ensures { found_of b result ≡ look b (shared after_date ++ received_extras (edition_of edition)) }
{
    match b {
        0x02 => Some(Move::line(Kind::ReceivedFrom, Next::Stay(Room::AfterFrom))),
        _ => after_from(edition, b),
    }
}

// After `from`.
pub fn after_from(edition: Edition, b: u8) -> Option<Move>
    ensures { found_of b result ≡ look b (shared after_from ++ received_extras (edition_of edition)) }
{
    match b {
        0x03 => Some(Move::line(Kind::ReceivedId, Next::Stay(Room::AfterId))),
        _ => after_id(edition, b),
    }
}

// After `id`.
pub fn after_id(edition: Edition, b: u8) -> Option<Move>
    ensures { found_of b result ≡ look b (shared after_id ++ received_extras (edition_of edition)) }
{
    match b {
        0x04 => Some(Move::line(Kind::ReceivedVia, Next::Stay(Room::AfterVia))),
        _ => after_via(edition, b),
    }
}

// After `via`: extras, and the 01.
pub fn after_via(edition: Edition, b: u8) -> Option<Move>
    ensures { found_of b result ≡ look b (shared after_via ++ received_extras (edition_of edition)) }
{
    match b {
        0x01 => Some(Move::Quiet(Next::Outer(Room::Parameters))),
        _ => extra(edition, b),
    }
}

// "then in D extras".
fn extra(edition: Edition, b: u8) -> Option<Move>
    ensures { found_of b result ≡ look b (received_extras (edition_of edition)) }
{
    if received_extra(edition) == Some(b) {
        return Some(Move::line(Kind::ExtraKey, Next::Stay(Room::ReceivedExtra)));
    }
    None
}
