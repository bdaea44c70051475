// Texts one behind the other, and a text that may be left out: all of them are lines.
ghost use Rattle.std.specs.Prelude.{Bool};
ghost use Rattle.meaning.specs.Told.{Edition};
ghost use Rattle.meaning.specs.Editions.{Room, State, state};
ghost use Rattle.table.specs.Codes.{code_number};
ghost use Rattle.write_rows.specs.Rooms.{TextsIn, OptionalIn};
ghost use Rattle.write_rows.specs.Stages.{TakeReady, OnwardAt};

use crate::advance::Onto;
use crate::ahead::text;
use crate::lay::put;
use crate::lent::Table;
use table::codes::CLOSING;
use values::text::Rule;

// "In a list of texts, 01 where an item would begin ends the list": lays every text of this kind and level from row `from` on,
// and the 01. Answers the first row that is none of them, and the place behind the 01. It refuses nothing: a list may be empty.
// A `while let`, and no chain over the rows: where the next text is laid only the last one says, and each may be the list's end.
// It is kept out of its callers, so that the text's own test is put in place here.
#[inline(never)]
pub fn texts(
    table: &Table,
    from: usize,
    kind: u32,
    level: u32,
    output: &mut [u8],
    at: usize,
) -> Onto
    requires { TakeReady table.now from kind output.old at }
    ensures { (edition : Edition) (room : Room) (single : Bool) (st₁ : State) → TextsIn edition room kind level single st₁ →
        OnwardAt edition table.now from (state room level single) result.row st₁ output.old at output.new result.at }
{
    let mut i = from;
    let mut p = at;
    while let Some(q) = text(table, i, kind, Rule::Line, level, None, output, p) {
        i += 1;
        p = q;
    }
    Onto {
        row: i,
        at: put(output, p, CLOSING),
    }
}

// Lays row i as a text of this kind and level behind its code, if it is one. Answers the row and the place behind it;
// where it is none, both are as they were and nothing is laid.
pub fn optional(
    table: &Table,
    i: usize,
    kind: u32,
    level: u32,
    code: Option<u8>,
    output: &mut [u8],
    at: usize,
) -> Onto
    requires { TakeReady table.now i kind output.old at }
    ensures { (edition : Edition) (room room₁ : Room) (single : Bool) → OptionalIn edition room room₁ kind (code_number code) →
        OnwardAt edition table.now i (state room level single) result.row (state room₁ level single) output.old at output.new result.at }
{
    let t = text(table, i, kind, Rule::Line, level, code, output, at);
    let Some(p) = t else {
        return Onto { row: i, at };
    };
    Onto { row: i + 1, at: p }
}
