// The writer: "takes edition, rows, a pool of bytes that they view, and output".
#![tactic(auto)]

ghost use Rattle.std.specs.Prelude.{◌≡◌, length};
ghost use Rattle.meaning.specs.Headers.{envelopes_most};
ghost use Rattle.meaning.specs.Writing.{whole_plan, write_rows};
ghost use Rattle.meaning.specs.Memory.{cells_of, skips_held};
ghost use Rattle.meaning.specs.Present.{checked};
ghost use Rattle.table.specs.Told.{edition_of};
ghost use Rattle.write_rows.specs.Stages.{cells_from};
ghost use Rattle.writer.specs.Promise.{WritePromise, WrittenAs, SkipsChecked, unless_wrong, check_is};

use hold_skips::first_wrong;
use table::answers::Fault;
use table::refusals::Refusal;
use table::reply::Reply;
use table::told::Edition;
use write_envelopes::envelope::put_all;
use write_envelopes::measure::{ENVELOPES, check};
use write_rows::lent::Table;

// Takes an edition's number, rows, the pool of bytes that they view, and output. Lays the table's bytes over the front of the output.
// "Accepted gives 0, bytes written, rows." "It checks 1, then 15 over all rows, then 5 .., then 16", and order 7 a wrong skip number "after 15's
// other faults": a refusal gives its number and place, and changes nothing.
pub fn write(edition: u32, rows: &[u32], pool: &[u8], output: &mut [u8]) -> Reply
    ensures { WritePromise edition rows.now pool.now output.old result output.new }
{
    let Ok(known) = Edition::try_from(edition) else {
        return Reply::from(Refusal::EditionUnknown.at(0));
    };
    write_in(known, &Table { rows, pool }, output)
}

// The same in a known edition. Refuses what the check does, with a wrong skip number behind its other 15s, then an output that is too short
// (16, with the bytes needed as place).
fn write_in(edition: Edition, table: &Table, output: &mut [u8]) -> Reply
    ensures { WrittenAs (write_rows (edition_of edition) (length output.old) (cells_of table.now.pool.now table.now.rows.now) (skips_held table.now.rows.now)) table.now.rows.now output.old result output.new }
{
    let mut lengths = [0usize; ENVELOPES];
    let many = match check_all(edition, table, &mut lengths[..]) {
        Ok(many) => many,
        Err(fault) => return Reply::from(fault),
    };
    if output.len() < many {
        return Reply::from(Refusal::OutputShort.at(many));
    }
    put_all(edition, table, &lengths[..], output);
    Reply {
        answer: 0,
        place: many,
        rows: table.room(),
    }
}

// Takes rows and the pool that they view, and no output. Answers the bytes that they need, or refuses what `write` refuses of them whatever output it is
// lent: rows that are no table (15), a wrong skip number (15), an envelope past a limit (5).
pub fn check_rows(edition: Edition, rows: &[u32], pool: &[u8]) -> Result<usize, Fault>
    ensures { check_is result ≡ checked (edition_of edition) rows.now pool.now }
{
    let mut lengths = [0usize; ENVELOPES];
    check_all(edition, &Table { rows, pool }, &mut lengths[..])
}

// Takes all rows, and room for the envelopes' lengths. Answers the bytes that the rows need, and then the lengths are noted. Refuses, in this order,
// rows that are no table (15), a wrong skip number (15, at the lowest such row), and an envelope past a limit (5, at its row).
fn check_all(edition: Edition, table: &Table, lengths: &mut [usize]) -> Result<usize, Fault>
    requires { length lengths.old ≡ envelopes_most }
    ensures { SkipsChecked (whole_plan (edition_of edition) (cells_from table.now 0)) (skips_held table.now.rows.now) result lengths.new }
{
    let c = check(edition, table, lengths);
    let Err(fault) = c else {
        return skips_before(table.rows, c);
    };
    match fault.refusal {
        Refusal::EnvelopeLimit => skips_before(table.rows, c),
        _ => c,
    }
}

// Takes what the rows answer where their skip numbers are right. Answers that, or refuses a wrong one (15, at the lowest such row).
pub fn skips_before(rows: &[u32], c: Result<usize, Fault>) -> Result<usize, Fault>
    ensures { result ≡ unless_wrong (skips_held rows.now) c }
{
    if let Some(wrong) = first_wrong(rows) {
        return Err(Refusal::TableWrong.at(wrong));
    }
    c
}
