// A date, whose kind and length pick its code.
ghost use Rattle.std.specs.Prelude.{◌≡◌, ◌++◌};
ghost use Rattle.meaning.specs.Editions.{Next, shared_date, own_dates};
ghost use Rattle.table.specs.Kinds.{number_of};
ghost use Rattle.table.specs.Told.{edition_of};
ghost use Rattle.write_rows.specs.Codes.{date_code};
ghost use Rattle.write_rows.specs.Stages.{StageReady, TriedAt};

use crate::lay::{copy, put};
use crate::lent::Table;
use crate::value::date_ok;
use date::Form;
use table::kinds::Kind;
use table::told::Edition;

// "Codes in B: 20 absolute, 21 absolute with designator. In D: 20, 21, 22 absolute, forward, backward; 24, 25, 26 the same with
// designator." Takes a row's kind, whether its bytes have a designator's length, and the edition. Answers the date's code there; None
// where a row of this kind is no date there.
fn date_code(kind: Kind, designated: bool, edition: Edition) -> Option<u8>
    ensures { result ≡ date_code (edition_of edition) (number_of kind) designated }
{
    match (edition, kind, designated) {
        (_, Kind::DateAbsolute, false) => Some(0x20),
        (Edition::B, Kind::DateAbsolute, true) => Some(0x21),
        (Edition::D, Kind::DateForward, false) => Some(0x21),
        (Edition::D, Kind::DateBackward, false) => Some(0x22),
        (Edition::D, Kind::DateAbsolute, true) => Some(0x24),
        (Edition::D, Kind::DateForward, true) => Some(0x25),
        (Edition::D, Kind::DateBackward, true) => Some(0x26),
        _ => None,
    }
}

// "Length 9 or 10 picks the date code": tries row i as a date of this level, and lays its code and bytes.
// Where it is another row, or its bytes are no date of its code, nothing is laid.
pub fn date(
    table: &Table,
    i: usize,
    level: u32,
    edition: Edition,
    output: &mut [u8],
    at: usize,
) -> Option<usize>
    requires { StageReady table.now i output.old at }
    ensures { (n : Next) → TriedAt (shared_date n ++ own_dates (edition_of edition) n) level table.now i output.old at result output.new }
{
    let r = table.ahead(i)?;
    if r.level != level {
        return None;
    }
    let Ok(kind) = Kind::try_from(r.kind) else {
        return None;
    };
    let bytes = table.view(&r);
    let designated = bytes.len() == 10;
    let code = date_code(kind, designated, edition)?;
    let absolute = kind == Kind::DateAbsolute;
    let form = Form {
        absolute,
        designated,
    };
    if date_ok(bytes, form) {
        let p = put(output, at, code);
        return Some(copy(bytes, output, p));
    }
    None
}
