// One value and its row. Each function takes the value off the input, from its first byte on.
// It answers the place behind the value and one row more, with the row put where `rows` has room for it; or the value's refusal, with no row changed.
ghost use Rattle.std.specs.Prelude.{◌≡◌, ◌≤◌, ◌+◌};
ghost use Rattle.meaning.specs.Told as meaning;
ghost use Rattle.meaning.specs.Editions.{State, any_values, representations};
ghost use Rattle.laws_steps.specs.Rows.{put};
ghost use Rattle.laws_steps.specs.Pouring.{header_most};
ghost use Rattle.laws_steps.specs.Shapes.{Shaped};
ghost use Rattle.table.specs.Kinds.{number_of};
ghost use Rattle.table.specs.Rows.{u32_most};
ghost use Rattle.table.specs.Told.{edition_of, told_of};
ghost use Rattle.date.specs.Dates.{dates_of};
ghost use Rattle.values.specs.Stages.{rule_of};
ghost use Rattle.read_rows.specs.Stages.{ReadyAt, goes_on, keeps, Fits, TextReadAt, NumberReadAt, StateReadAt};

use table::answers::{Reached, Stage};
use table::kinds::Kind;
use table::rows::put_row;
use table::told::Told;
use values::Value;
use values::text::Rule;

// A text by its rule, whose row has this kind and level.
pub fn text(s: &[u8], from: Reached, rows: &mut [u32], kind: u32, rule: Rule, level: u32) -> Stage
    requires { ReadyAt s.now from }
    ensures { (t : meaning.Told) (q : State) → TextReadAt t s.now kind (rule_of rule) level q from rows.old result q rows.new }
{
    let v = values::text::take(s, from.at, kind, rule);
    keep(v, rows, from.rows, level)
}

// A payload length.
pub fn number(s: &[u8], from: Reached, rows: &mut [u32]) -> Stage
    requires { ReadyAt s.now from }
    ensures { (t : meaning.Told) (q : State) → NumberReadAt t s.now q from rows.old result q rows.new }
{
    let v = values::number::take(s, from.at);
    keep(v, rows, from.rows, 0)
}

// An any-value, whose row has this level. It is put in place where it is called.
#[inline(always)]
pub fn any(s: &[u8], from: Reached, rows: &mut [u32], level: u32, told: Told) -> Stage
    requires { ReadyAt s.now from }
    ensures { (q d : State) → Shaped (told_of told) q d level 7 any_values → StateReadAt (told_of told) s.now q from rows.old result d rows.new }
{
    let v = values::any::take(s, from.at, told);
    keep(v, rows, from.rows, level)
}

// The same of a transport behaviour, whose row has level 0.
pub fn behaviour(s: &[u8], from: Reached, rows: &mut [u32], told: Told) -> Stage
    requires { ReadyAt s.now from }
    ensures { (q d : State) → Shaped (told_of told) q d 0 7 any_values → StateReadAt (told_of told) s.now q from rows.old result d rows.new }
{
    let v = values::any::take_in_place(s, from.at, told);
    keep(v, rows, from.rows, 0)
}

// A representation.
pub fn representation(s: &[u8], from: Reached, rows: &mut [u32]) -> Stage
    requires { ReadyAt s.now from }
    ensures { (t : meaning.Told) (q d : State) → Shaped t q d 0 7 representations → StateReadAt t s.now q from rows.old result d rows.new }
{
    let v = values::representation::take(s, from.at);
    keep(v, rows, from.rows, 0)
}

// A date, whose row has this level.
pub fn date(s: &[u8], from: Reached, rows: &mut [u32], level: u32, told: Told) -> Stage
    requires { ReadyAt s.now from }
    ensures { (q d : State) → Shaped (told_of told) q d level 9 (dates_of (edition_of told.edition)) →
        StateReadAt (told_of told) s.now q from rows.old result d rows.new }
{
    let v = date::take(s, from.at, told.edition);
    keep(v, rows, from.rows, level)
}

// Takes a value's answer. Puts its row as row n and goes on behind it, or hands its refusal up.
fn keep(value: Value, rows: &mut [u32], n: usize, level: u32) -> Stage
    requires fits { Fits value }
    requires few { n ≤ header_most }
    ensures { (result ≡ goes_on value n) × (rows.new ≡ keeps value n level rows.old) }
{
    match value {
        Value::Refused(fault) => Stage::Refused(fault),
        Value::Is {
            kind,
            start,
            length,
            after,
        } => {
            put_row(rows, n, kind, level, start, length);
            Stage::Go(Reached {
                at: after,
                rows: n + 1,
            })
        }
    }
}

// Puts the row, of this kind and level, that the code at a place opens. Answers the place behind the code and one row more.
pub fn open(rows: &mut [u32], from: Reached, kind: Kind, level: u32) -> Reached
    requires { (from.at ≤ u32_most) × (from.rows ≤ u32_most) }
    ensures at { result.at ≡ from.at + 1 }
    ensures rows { result.rows ≡ from.rows + 1 }
    ensures put { rows.new ≡ put rows.old from.rows (number_of kind) level from.at 0 }
{
    put_row(rows, from.rows, kind.number(), level, from.at, 0);
    Reached {
        at: from.at + 1,
        rows: from.rows + 1,
    }
}
