// Moves that several rooms have: representations, any-values, dates, and lists of texts.
ghost use Rattle.std.specs.Prelude.{◌≡◌, [], ◌∷◌, ◌++◌, ℕ, Some};
ghost use Rattle.meaning.specs.Bytes.{line};
ghost use Rattle.meaning.specs.Editions.{representations, any_values, shared_date, own_dates, text, no_code, closing, on◌▸◌▸◌▸◌, pass◌▸◌};
ghost use Rattle.meaning.specs.Reading.{look};
ghost use Rattle.table.specs.Told.{edition_of};
ghost use Rattle.moves.specs.Words.{next_of, found_of, found_by};

use crate::rooms::{Form, Move, Next};
use table::kinds::Kind;
use table::told::Edition;
use values::text::Rule;

// "Representation: 10, 11 or 12, or 00 and a text."
pub fn representation(b: u8, next: Next) -> Option<Move>
    ensures { found_of b result ≡ look b (representations (next_of next)) }
{
    match b {
        0x10..=0x12 => Some(Move::Coded(Kind::StandardRepresentation, Form::Itself, next)),
        0x00 => Some(Move::line(Kind::OwnRepresentation, next)),
        _ => None,
    }
}

// "Any-value: 14 and a text, or 16, 17, 19 with a length of 1, 2, 4 bytes .. and that many bytes."
pub fn any(b: u8, next: Next) -> Option<Move>
    ensures { found_of b result ≡ look b (any_values (next_of next)) }
{
    match b {
        0x14 => Some(Move::note(Kind::AnyText, next)),
        0x16 => Some(Move::Coded(Kind::AnyBytes, Form::OneByte, next)),
        0x17 => Some(Move::Coded(Kind::AnyBytes, Form::TwoBytes, next)),
        0x19 => Some(Move::Coded(Kind::AnyBytes, Form::FourBytes, next)),
        _ => None,
    }
}

// "Date: a code. Codes in B: 20 absolute, 21 absolute with designator. In D: 20, 21, 22 absolute, forward, backward; 24, 25, 26 the same with
// designator."
pub fn date(edition: Edition, b: u8, next: Next) -> Option<Move>
    ensures { found_of b result ≡ look b (shared_date (next_of next) ++ own_dates (edition_of edition) (next_of next)) }
{
    match (edition, b) {
        (_, 0x20) => dated(Kind::DateAbsolute, true, false, next),
        (Edition::B, 0x21) => dated(Kind::DateAbsolute, true, true, next),
        (Edition::D, 0x21) => dated(Kind::DateForward, false, false, next),
        (Edition::D, 0x22) => dated(Kind::DateBackward, false, false, next),
        (Edition::D, 0x24) => dated(Kind::DateAbsolute, true, true, next),
        (Edition::D, 0x25) => dated(Kind::DateForward, false, true, next),
        (Edition::D, 0x26) => dated(Kind::DateBackward, false, true, next),
        _ => None,
    }
}

// A date's move.
fn dated(kind: Kind, absolute: bool, designated: bool, next: Next) -> Option<Move>
    ensures { result ≡ Some (Move.Coded kind (Form.Date absolute designated) next) }
{
    let form = Form::Date {
        absolute,
        designated,
    };
    Some(Move::Coded(kind, form, next))
}

// "In a list of texts, 01 where an item would begin ends the list": lines of one kind, and where the list and an item lead. The kind may be a number, any
// at all, and is only passed on.
pub fn texts<K: Copy>(b: u8, kind: K, item: Next, end: Next) -> Option<Move<K>>
    ensures { (number : K → ℕ) → found_by number b result ≡ look b (pass closing ▸ next_of end ∷ on no_code ▸ number kind ▸ text line ▸ next_of item ∷ []) }
{
    match b {
        0x01 => Some(Move::Quiet(end)),
        _ => Some(Move::Uncoded(kind, Rule::Line, item)),
    }
}
