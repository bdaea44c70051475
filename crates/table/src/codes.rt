// Document 01, "Bytes": the code bytes that reader and writer both know by more than one move.
ghost use Rattle.std.specs.Prelude.{◌≡◌};
ghost use Rattle.table.specs.Told.{edition_of};
ghost use Rattle.meaning.specs.Editions.{extra_code};
ghost use Rattle.table.specs.Codes.{received_extra_code};

use crate::told::Edition;

// The byte that ends a list, an agent, a received object, an envelope.
pub const CLOSING: u8 = 0x01;

// "Extra: code 04 in B, 05 in D."
pub fn agent_extra(edition: Edition) -> u8
    ensures { result ≡ extra_code (edition_of edition) }
{
    match edition {
        Edition::B => 0x04,
        Edition::D => 0x05,
    }
}

// "Received object: .. then in D extras": in B it has none.
pub fn received_extra(edition: Edition) -> Option<u8>
    ensures { result ≡ received_extra_code (edition_of edition) }
{
    match edition {
        Edition::B => None,
        Edition::D => Some(0x05),
    }
}
