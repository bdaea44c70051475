// The pass that checks and measures: "15 over all rows, then 5 (place: the envelope's row)".
ghost use Rattle.std.specs.Prelude.{◌≡◌, ◌+◌, ◌-◌, ◌*◌, ◌≤◌, length, set};
ghost use Rattle.meaning.specs.Headers.{start, envelope_most, envelopes_most};
ghost use Rattle.meaning.specs.Memory.{room_of};
ghost use Rattle.meaning.specs.Writing.{envelope_size, whole_plan};
ghost use Rattle.table.specs.Told.{edition_of};
ghost use Rattle.write_rows.specs.Bodies.{body_of};
ghost use Rattle.write_rows.specs.Stages.{cells_from};
ghost use Rattle.write_envelopes.specs.Whole.{MeasuredAt, OneMore, limit_of, end_verdict, verdict_is, CheckedAs};

use table::answers::Fault;
use table::limits::{ENVELOPE_MOST, ENVELOPES_MOST, LONG_HEAD, SHORT_HEAD, SHORT_MOST};
use table::refusals::Refusal;
use table::told::Edition;
use write_inside::body::{Inside, body, open_at};
use write_rows::advance::Misfit;
use write_rows::lent::Table;

// How many envelopes' lengths the check notes: as many as a table may have.
pub const ENVELOPES: usize = ENVELOPES_MOST as usize;

// The envelopes so far: how many may still come, their bytes, and the row of the first that is past a limit.
#[derive(Clone, Copy)]
pub struct Sizes {
    pub left: usize,
    pub total: usize,
    pub over: Option<usize>,
}

// "The long form is used exactly if the envelope in the short form would pass 65,535 bytes." Takes how many bytes an envelope has inside.
// Answers how many it has in all.
pub fn size_of(many: usize) -> usize
    requires { many ≤ envelope_most }
    ensures { (result ≡ envelope_size many) × (result ≤ 7 + envelope_most) }
{
    let n = SHORT_HEAD + many;
    if n <= SHORT_MOST {
        return n;
    }
    LONG_HEAD + many
}

// Takes the envelopes so far, and one more: its row i, and how many bytes it has inside. Answers them with it.
// Past a limit no bytes are added: 5 comes before 16.
fn count_in(t: Sizes, i: usize, many: usize) -> Sizes
    requires { (many ≤ envelope_most) × (t.total + t.left * envelope_most ≤ envelopes_most * envelope_most) }
    ensures { OneMore t i many result }
{
    let left = t.left.saturating_sub(1);
    let total = t.total;
    let size = size_of(many);
    if t.over.is_some() {
        return Sizes {
            left,
            total,
            over: t.over,
        };
    }
    if (t.left == 0) | (ENVELOPE_MOST < size) {
        return Sizes {
            left,
            total,
            over: Some(i),
        };
    }
    Sizes {
        left,
        total: total + size,
        over: None,
    }
}

// Takes the row after an envelope's own, and whether it is the base. Answers the row behind its inside, and how many bytes that has;
// or the row that fits nowhere. Nothing is laid: its part of the output is empty.
pub(crate) fn measure(
    edition: Edition,
    table: &Table,
    from: usize,
    base: bool,
) -> Result<Inside, Misfit>
    requires { from ≤ room_of table.now.rows.now }
    ensures { MeasuredAt (body_of (edition_of edition) (cells_from table.now from) from (start base)) table.now result }
{
    let mut none = [0u8; 1];
    body(edition, table, from, base, &mut none[..0])
}

// Notes how many bytes an envelope has inside, for the pass that writes, where `left` may still come with it.
// A seventeenth has no place, and changes nothing.
fn note(lengths: &mut [usize], left: usize, many: usize)
    requires { (length lengths.old ≡ envelopes_most) × (left ≤ envelopes_most) }
    ensures { lengths.new ≡ set lengths.old (envelopes_most - left) many }
{
    if left != 0 {
        lengths[ENVELOPES - left] = many;
    }
}

// Takes the row behind the base, and all envelopes. Answers the bytes that they need.
// Refuses a row or a number left over there (15), then an envelope past a limit (5).
pub(crate) fn ended(table: &Table, row: usize, t: Sizes) -> Result<usize, Fault>
    ensures { verdict_is result ≡ end_verdict (cells_from table.now row) row t.total (limit_of t.over) }
{
    if row < table.room() {
        return Err(Refusal::TableWrong.at(row));
    }
    if !table.whole() {
        return Err(Refusal::TableWrong.at(row));
    }
    match t.over {
        Some(first) => Err(Refusal::EnvelopeLimit.at(first)),
        None => Ok(t.total),
    }
}

// Takes all rows, and room for the envelopes' lengths. Answers the bytes that the rows need, and then the lengths are noted.
// Refuses rows that are no table (15, at the first that fits nowhere), then an envelope past a limit (5, at its row).
// A loop, and no chain over the rows: where the next envelope begins only the last one says.
pub fn check(edition: Edition, table: &Table, lengths: &mut [usize]) -> Result<usize, Fault>
    requires { length lengths.old ≡ envelopes_most }
    ensures { CheckedAs (whole_plan (edition_of edition) (cells_from table.now 0)) result lengths.new }
{
    let mut i: usize = 0;
    let mut t = Sizes {
        left: ENVELOPES,
        total: 0,
        over: None,
    };
    loop {
        let Some(base) = open_at(table, i) else {
            return Err(Refusal::TableWrong.at(i));
        };
        let inside = measure(edition, table, i + 1, base)?;
        note(lengths, t.left, inside.many);
        t = count_in(t, i, inside.many);
        if base {
            return ended(table, inside.row, t);
        }
        i = inside.row;
    }
}
