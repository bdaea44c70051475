// "Received object: by (text), date, then optionally and in this order 02 from, 03 id, 04 via (texts), then in D extras, then 01."
ghost use Rattle.std.specs.Prelude.{false};
ghost use Rattle.meaning.specs.Editions.{state, received_begins, after_date, parameters};
ghost use Rattle.table.specs.Told.{edition_of};
ghost use Rattle.write_rows.specs.Stages.{AdvanceAt, StageReady, Beyond};

use table::codes::{CLOSING, received_extra};
use table::kinds::Kind;
use table::told::Edition;
use values::text::Rule;
use write_rows::advance::{Misfit, Onto, needed};
use write_rows::ahead::text;
use write_rows::dates::date;
use write_rows::extras::some_extras;
use write_rows::lay::put;
use write_rows::lent::Table;
use write_rows::texts::optional;

// Lays what stands behind a received object's date, from row i on: from, id and via where they are there, extras in D, and the 01.
// Refuses the row behind an extra's key that is no any-value.
fn behind_date(
    table: &Table,
    i: usize,
    edition: Edition,
    output: &mut [u8],
    at: usize,
) -> Result<Onto, Misfit>
    requires { StageReady table.now i output.old at }
    ensures { AdvanceAt (edition_of edition) table.now i (state after_date 1 false) (state parameters 0 false) output.old at result output.new }
{
    let a = optional(
        table,
        i,
        Kind::ReceivedFrom as u32,
        1,
        Some(0x02),
        output,
        at,
    );
    let b = optional(
        table,
        a.row,
        Kind::ReceivedId as u32,
        1,
        Some(0x03),
        output,
        a.at,
    );
    let c = optional(
        table,
        b.row,
        Kind::ReceivedVia as u32,
        1,
        Some(0x04),
        output,
        b.at,
    );
    let Some(code) = received_extra(edition) else {
        return Ok(Onto {
            row: c.row,
            at: put(output, c.at, CLOSING),
        });
    };
    some_extras(table, c.row, 1, Some(code), output, c.at)
}

// Lays a received object from row i on, which views its `by`. Answers the row and the place behind it.
// Refuses row i if it is no `by`, the next if that is no date, and what `behind_date` does.
pub fn received(
    table: &Table,
    i: usize,
    edition: Edition,
    output: &mut [u8],
    at: usize,
) -> Result<Onto, Misfit>
    requires { StageReady table.now i output.old at }
    ensures { (AdvanceAt (edition_of edition) table.now i (state received_begins 0 false) (state parameters 0 false) output.old at result output.new) × Beyond i result }
{
    let t = text(
        table,
        i,
        Kind::ReceivedBy as u32,
        Rule::Line,
        0,
        None,
        output,
        at,
    );
    let by = needed(t, i)?;
    let d = date(table, by.row, 1, edition, output, by.at);
    let dated = needed(d, by.row)?;
    behind_date(table, dated.row, edition, output, dated.at)
}
