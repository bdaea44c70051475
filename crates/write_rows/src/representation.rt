// A representation, whose byte or text picks its code.
ghost use Rattle.meaning.specs.Editions.{Next, representations};
ghost use Rattle.write_rows.specs.Rooms.{standards};
ghost use Rattle.write_rows.specs.Stages.{StageReady, TriedAt};

use crate::ahead::text;
use crate::lay::put;
use crate::lent::Table;
use table::kinds::Kind;
use values::text::Rule;

// "10, 11 or 12": tries row i as a standard representation, and lays its byte.
// Where it is another row, or its bytes are none of these, nothing is laid.
pub fn standard(table: &Table, i: usize, output: &mut [u8], at: usize) -> Option<usize>
    requires { StageReady table.now i output.old at }
    ensures { (n : Next) → TriedAt (standards n) 0 table.now i output.old at result output.new }
{
    let r = table.look_for(i, Kind::StandardRepresentation as u32, 0)?;
    let start = r.start;
    if r.end - start != 1 {
        return None;
    }
    let b = table.pool[start];
    if (0x10..=0x12).contains(&b) {
        return Some(put(output, at, b));
    }
    None
}

// "Representation: 10, 11 or 12, or 00 and a text": tries row i as one, and lays it.
// Where it is another row, or its bytes are none of these, nothing is laid.
pub fn representation(table: &Table, i: usize, output: &mut [u8], at: usize) -> Option<usize>
    requires { StageReady table.now i output.old at }
    ensures { (n : Next) → TriedAt (representations n) 0 table.now i output.old at result output.new }
{
    let t = standard(table, i, output, at);
    let Some(p) = t else {
        return text(
            table,
            i,
            Kind::OwnRepresentation as u32,
            Rule::Line,
            0,
            Some(0x00),
            output,
            at,
        );
    };
    Some(p)
}
