// The pass that writes, once the check is passed and the output has room.
ghost use Rattle.std.specs.Prelude.{◌≡◌, ◌≤◌, length};
ghost use Rattle.meaning.specs.Headers.{start, envelope_most};
ghost use Rattle.meaning.specs.Writing.{whole_plan};
ghost use Rattle.meaning.specs.Memory.{laid_over};
ghost use Rattle.table.specs.Told.{edition_of};
ghost use Rattle.write_rows.specs.Laying.{Laid};
ghost use Rattle.write_rows.specs.Bodies.{body_of};
ghost use Rattle.write_rows.specs.Stages.{cells_from};
ghost use Rattle.write_envelopes.specs.Whole.{WritableAt, EnvelopeWrittenAt, EnvelopeReady, head_of, bytes_of_plan};

use crate::measure::size_of;
use table::limits::{LONG_HEAD, SHORT_HEAD, SHORT_MOST};
use table::told::Edition;
use write_inside::body::{Inside, body, open_at};
use write_rows::advance::Misfit;
use write_rows::lay::{copy, put};
use write_rows::lent::Table;

// "Extension: FD, length ..; Base: FE, length": lays the identifier and the length of an envelope with so many bytes inside, in the short
// form or the long one. Answers the place behind them.
fn put_head(base: bool, many: usize, output: &mut [u8]) -> usize
    requires { (many ≤ envelope_most) × (length output.old ≤ envelope_most) }
    ensures { Laid output.old 0 (head_of base many) output.new result }
{
    let p = put(output, 0, identifier(base));
    if SHORT_HEAD + many <= SHORT_MOST {
        return copy(&((SHORT_HEAD + many) as u16).to_be_bytes(), output, p);
    }
    let q = copy(&[0, 0], output, p);
    copy(&((LONG_HEAD + many) as u32).to_be_bytes(), output, q)
}

// Takes whether an envelope is the base. Answers its identifier: FE for the base, else FD.
fn identifier(base: bool) -> u8
    ensures { result ≡ Rattle.write_envelopes.specs.Whole.identifier_of base }
{
    if base {
        return 0xfe;
    }
    0xfd
}

// Lays one envelope at `at`, by whether it is the base, the row after its own, and how many bytes it has inside.
// Answers where its rows end; bytes before and behind it are as they were.
pub(crate) fn put_envelope(
    edition: Edition,
    table: &Table,
    from: usize,
    base: bool,
    many: usize,
    output: &mut [u8],
    at: usize,
) -> Result<Inside, Misfit>
    requires { EnvelopeReady table.now from many output.old at }
    ensures { EnvelopeWrittenAt (body_of (edition_of edition) (cells_from table.now from) from (start base)) table.now base many output.old at output.new result }
{
    let end = at + size_of(many);
    let inside = end - many;
    put_head(base, many, &mut output[at..inside]);
    body(edition, table, from, base, &mut output[inside..end])
}

// Lays all envelopes over the front of `output`, with the lengths that the check noted. Bytes behind them are as they were.
pub fn put_all(edition: Edition, table: &Table, lengths: &[usize], output: &mut [u8])
    requires { WritableAt (edition_of edition) table.now lengths.now output.old }
    ensures { output.new ≡ laid_over output.old (bytes_of_plan (whole_plan (edition_of edition) (cells_from table.now 0))) }
{
    let mut i: usize = 0;
    let mut at: usize = 0;
    for many in lengths {
        let Some(base) = open_at(table, i) else {
            return;
        };
        let Ok(inside) = put_envelope(edition, table, i + 1, base, *many, output, at) else {
            return;
        };
        if base {
            return;
        }
        i = inside.row;
        at += size_of(*many);
    }
}
