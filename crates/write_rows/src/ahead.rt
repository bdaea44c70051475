// The rows of one form alone: a text, an opening, a number.
ghost use Rattle.std.specs.Prelude.{[], ◌∷◌, ◌≤◌};
ghost use Rattle.meaning.specs.Kinds.{payload_length};
ghost use Rattle.meaning.specs.Editions.{Next, opens, on◌▸◌▸◌▸◌};
ghost use Rattle.meaning.specs.Memory.{room_of};
ghost use Rattle.table.specs.Codes.{code_number};
ghost use Rattle.values.specs.Stages.{rule_of};
ghost use Rattle.write_rows.specs.Stages.{StageReady, TakeReady, TriedAt};

use crate::lay::{copy, put, put_code};
use crate::lent::Table;
use crate::value::{number_ok, text_ok};
use table::kinds::Kind;
use values::text::Rule;

// Tries row i as a text of this kind and level by its rule: lays its code, if it has one, its bytes and the 00 behind them.
// Where it is another row, or has a byte that the rule does not allow, nothing is laid. It is put in place where it is called: most arguments are numbers there.
#[inline(always)]
pub fn text(
    table: &Table,
    i: usize,
    kind: u32,
    rule: Rule,
    level: u32,
    code: Option<u8>,
    output: &mut [u8],
    at: usize,
) -> Option<usize>
    requires { TakeReady table.now i kind output.old at }
    ensures { (n : Next) → TriedAt (on code_number code ▸ kind ▸ Rattle.meaning.specs.Editions.text (rule_of rule) ▸ n ∷ []) level table.now i output.old at result output.new }
{
    let r = table.look_for(i, kind, level)?;
    let bytes = table.view(&r);
    if text_ok(bytes, rule) {
        let p = put_code(code, output, at);
        let q = copy(bytes, output, p);
        return Some(put(output, q, 0));
    }
    None
}

// Tries row i as one of this kind and level that opens what follows: lays its code, if it has one.
// Where it is another row, or views bytes, nothing is laid.
pub fn opened(
    table: &Table,
    i: usize,
    kind: u32,
    level: u32,
    code: Option<u8>,
    output: &mut [u8],
    at: usize,
) -> Option<usize>
    requires { TakeReady table.now i kind output.old at }
    ensures { (n : Next) → TriedAt (on code_number code ▸ kind ▸ opens ▸ n ∷ []) level table.now i output.old at result output.new }
{
    let r = table.look_for(i, kind, level)?;
    if r.start == r.end {
        return Some(put_code(code, output, at));
    }
    None
}

// "06 payload length": tries row i as one, and lays the code and its bytes.
// Where it is another row, or its bytes are no number, nothing is laid.
pub fn number(table: &Table, i: usize, output: &mut [u8], at: usize) -> Option<usize>
    requires { StageReady table.now i output.old at }
    ensures { (n : Next) → TriedAt (on 0x06 ▸ payload_length ▸ Rattle.meaning.specs.Editions.number ▸ n ∷ []) 0 table.now i output.old at result output.new }
{
    let r = table.look_for(i, Kind::PayloadLength as u32, 0)?;
    let bytes = table.view(&r);
    if number_ok(bytes) {
        let p = put(output, at, 0x06);
        return Some(copy(bytes, output, p));
    }
    None
}
