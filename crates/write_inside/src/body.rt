// The inside of one envelope, stage by stage.
ghost use Rattle.std.specs.Prelude.{◌≡◌, false, ◌≤◌, length};
ghost use Rattle.meaning.specs.Editions.{state, closed};
ghost use Rattle.meaning.specs.Headers.{start, envelope_most};
ghost use Rattle.meaning.specs.Memory.{room_of};
ghost use Rattle.table.specs.Told.{edition_of};
ghost use Rattle.write_rows.specs.Bodies.{body_of};
ghost use Rattle.write_rows.specs.Stages.{cells_from, AdvanceAt, at_parameters};
ghost use Rattle.write_inside.specs.Insides.{BodyAt, open_base, ends_before};

use crate::parameters::parameters;
use table::kinds::Kind;
use table::told::Edition;
use write_objects::received::received;
use write_rows::advance::{Misfit, Onto, needed};
use write_rows::dates::date;
use write_rows::lent::Table;
use write_rows::representation::representation;

// The row behind an envelope, and how many bytes its inside has.
#[derive(Clone, Copy)]
pub struct Inside {
    pub row: usize,
    pub many: usize,
}

// Answers whether row i opens the base or an extension: true for the base, false for an extension.
// Where it opens no envelope, there is no such row, or its bytes are not all in the pool: None.
pub fn open_at(table: &Table, i: usize) -> Option<bool>
    requires { i ≤ room_of table.now.rows.now }
    ensures { result ≡ open_base (cells_from table.now i) }
{
    let r = table.ahead(i)?;
    if r.level != 0 {
        return None;
    }
    if r.start != r.end {
        return None;
    }
    let Ok(kind) = Kind::try_from(r.kind) else {
        return None;
    };
    match kind {
        Kind::ExtensionOpens => Some(false),
        Kind::BaseOpens => Some(true),
        _ => None,
    }
}

// "Base: FE, length, representation, date"; an extension begins with a received object. Lays the front of an inside from row i on.
// Answers the row and the place behind it. Refuses the first row that does not stand there.
fn front(
    table: &Table,
    i: usize,
    base: bool,
    edition: Edition,
    output: &mut [u8],
) -> Result<Onto, Misfit>
    requires { (i ≤ room_of table.now.rows.now) × (length output.old ≤ envelope_most) }
    ensures { AdvanceAt (edition_of edition) table.now i (start base) at_parameters output.old 0 result output.new }
{
    if base {
        let first = needed(representation(table, i, output, 0), i)?;
        let d = date(table, first.row, 0, edition, output, first.at);
        return needed(d, first.row);
    }
    received(table, i, edition, output, 0)
}

// Lays an inside from row i on: its front, its parameters and the 01 behind them. Answers the row and the place behind it.
// Refuses what its front and its parameters do.
fn stages(
    table: &Table,
    i: usize,
    base: bool,
    edition: Edition,
    output: &mut [u8],
) -> Result<Onto, Misfit>
    requires { (i ≤ room_of table.now.rows.now) × (length output.old ≤ envelope_most) }
    ensures { AdvanceAt (edition_of edition) table.now i (start base) (state closed 0 false) output.old 0 result output.new }
{
    let behind = front(table, i, base, edition, output)?;
    parameters(table, behind.row, edition, output, behind.at)
}

// Answers whether an envelope can end before row i: row i opens the next one, or the rows end there and no number is left over.
fn ends_at(table: &Table, i: usize) -> bool
    requires { i ≤ room_of table.now.rows.now }
    ensures { result ≡ ends_before (cells_from table.now i) }
{
    if table.room() <= i {
        return table.whole();
    }
    open_at(table, i).is_some()
}

// Lays the inside of an envelope, the base or an extension, from the row after its own on. Answers the row behind it, and how many bytes
// it has. Refuses the first row that does not stand there. Bytes that `output` has no room for are only counted.
pub fn body(
    edition: Edition,
    table: &Table,
    from: usize,
    base: bool,
    output: &mut [u8],
) -> Result<Inside, Misfit>
    requires { (from ≤ room_of table.now.rows.now) × (length output.old ≤ envelope_most) }
    ensures { BodyAt (body_of (edition_of edition) (cells_from table.now from) from (start base)) table.now output.old 0 result output.new }
{
    let end = stages(table, from, base, edition, output)?;
    if ends_at(table, end.row) {
        return Ok(Inside {
            row: end.row,
            many: end.at,
        });
    }
    Err(Misfit { row: end.row })
}
