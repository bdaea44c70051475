// An any-value, whose kind and length pick its code.
ghost use Rattle.std.specs.Prelude.{◌≤◌, length};
ghost use Rattle.meaning.specs.Editions.{Next, any_values};
ghost use Rattle.table.specs.Rows.{u32_most};
ghost use Rattle.write_rows.specs.Laying.{Layable, Laid};
ghost use Rattle.write_rows.specs.Codes.{block_bytes};
ghost use Rattle.write_rows.specs.Stages.{StageReady, TriedAt};

use crate::ahead::text;
use crate::lay::{copy, put};
use crate::lent::Table;
use table::kinds::Kind;
use values::text::Rule;

// "16, 17, 19 with a length of 1, 2, 4 bytes .. and that many bytes": lays the code of the shortest length form that the bytes
// have room in, the length and the bytes. Answers the count behind them.
fn block(bytes: &[u8], output: &mut [u8], at: usize) -> usize
    requires { (length bytes.now ≤ u32_most) × Layable output.old at }
    ensures { Laid output.old at (block_bytes bytes.now) output.new result }
{
    let many = bytes.len();
    if many < 256 {
        let p = put(output, at, 0x16);
        let q = put(output, p, many as u8);
        return copy(bytes, output, q);
    }
    if many < 65536 {
        let p = put(output, at, 0x17);
        let q = copy(&(many as u16).to_be_bytes(), output, p);
        return copy(bytes, output, q);
    }
    let p = put(output, at, 0x19);
    let q = copy(&(many as u32).to_be_bytes(), output, p);
    copy(bytes, output, q)
}

// "Any-value: 14 and a text, or .. that many bytes": tries row i as one of this level, and lays it.
// Its text is a note. Where it is another row, or of the text's kind with a byte that no note has, nothing is laid.
// It is put in place where it is called, so that a level that is a number there stays one.
#[inline(always)]
pub fn any(table: &Table, i: usize, level: u32, output: &mut [u8], at: usize) -> Option<usize>
    requires { StageReady table.now i output.old at }
    ensures { (n : Next) → TriedAt (any_values n) level table.now i output.old at result output.new }
{
    let Some(r) = table.look_for(i, Kind::AnyBytes as u32, level) else {
        return text(
            table,
            i,
            Kind::AnyText as u32,
            Rule::Note,
            level,
            Some(0x14),
            output,
            at,
        );
    };
    Some(block(table.view(&r), output, at))
}
