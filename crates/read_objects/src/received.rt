// "Received object: by (text), date, then optionally and in this order 02 from, 03 id, 04 via (texts), then in D extras, then 01."
// Each function answers the place behind what it read with the rows then, or the first refusal.
ghost use Rattle.std.specs.Prelude.{false};
ghost use Rattle.meaning.specs.Editions.{state, received_begins, after_date, after_via, parameters};
ghost use Rattle.table.specs.Told.{told_of};
ghost use Rattle.read_rows.specs.Stages.{ReadyAt, StateReadAt};

use read_rows::look::{fault, peek};
use read_rows::{rows, texts};
use table::answers::{Reached, Stage};
use table::codes::{CLOSING, received_extra};
use table::kinds::Kind;
use table::told::Told;
use values::text::Rule;

// A received object, from its first text up to its 01.
pub fn read_received(s: &[u8], from: Reached, rows: &mut [u32], told: Told) -> Stage
    requires { ReadyAt s.now from }
    ensures { StateReadAt (told_of told) s.now (state received_begins 0 false) from rows.old result (state parameters 0 false) rows.new }
{
    let by = rows::text(s, from, rows, Kind::ReceivedBy as u32, Rule::Line, 0);
    let Stage::Go(behind_by) = by else {
        return by;
    };
    let date = rows::date(s, behind_by, rows, 1, told);
    let Stage::Go(after_date) = date else {
        return date;
    };
    behind_date(s, after_date, rows, told)
}

// What stands behind a received object's date, up to its 01.
fn behind_date(s: &[u8], date: Reached, rows: &mut [u32], told: Told) -> Stage
    requires { ReadyAt s.now date }
    ensures { StateReadAt (told_of told) s.now (state after_date 1 false) date rows.old result (state parameters 0 false) rows.new }
{
    let from = texts::optional(s, date, rows, 0x02, Kind::ReceivedFrom as u32, 1);
    let Stage::Go(behind_from) = from else {
        return from;
    };
    let id = texts::optional(s, behind_from, rows, 0x03, Kind::ReceivedId as u32, 1);
    let Stage::Go(behind_id) = id else {
        return id;
    };
    let via = texts::optional(s, behind_id, rows, 0x04, Kind::ReceivedVia as u32, 1);
    let Stage::Go(after_via) = via else {
        return via;
    };
    behind_via(s, after_via, rows, told)
}

// A received object's extras, most often none, and its 01. In an edition where it has none, only the 01 can stand.
fn behind_via(s: &[u8], from: Reached, rows: &mut [u32], told: Told) -> Stage
    requires { ReadyAt s.now from }
    ensures { StateReadAt (told_of told) s.now (state after_via 1 false) from rows.old result (state parameters 0 false) rows.new }
{
    let b = peek(s, from.at);
    if b == Some(CLOSING) {
        return Stage::Go(from.passed());
    }
    let Some(code) = received_extra(told.edition) else {
        return fault(b, from.at);
    };
    texts::extras(s, from, rows, u32::from(code), 1, told)
}
