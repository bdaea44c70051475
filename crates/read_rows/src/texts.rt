// Runs of rows of one shape. Each function answers the place behind what it read with the rows then, or the first refusal.
ghost use Rattle.std.specs.Prelude.{◌≡◌};
ghost use Rattle.meaning.specs.Bytes.{line};
ghost use Rattle.meaning.specs.Kinds.{extra_key};
ghost use Rattle.meaning.specs.Told as meaning;
ghost use Rattle.meaning.specs.Editions.{State, any_values};
ghost use Rattle.laws_steps.specs.Shapes.{Shaped, Texts, Optional, Extras};
ghost use Rattle.table.specs.Told.{told_of};
ghost use Rattle.read_rows.specs.Stages.{ReadyAt, StateReadAt, TextReadAt};

use crate::look::{fault, peek};
use crate::rows;
use table::answers::{Reached, Stage};
use table::codes::CLOSING;
use table::kinds::Kind;
use table::told::Told;
use values::text::Rule;

// A line that may be left out, from its code on. Where another byte stands, nothing is taken and no row changes.
pub fn optional(s: &[u8], from: Reached, rows: &mut [u32], code: u8, kind: u32, level: u32) -> Stage
    requires { ReadyAt s.now from }
    ensures { (t : meaning.Told) (q d : State) → Optional t q d code kind level → StateReadAt t s.now q from rows.old result d rows.new }
{
    if peek(s, from.at) != Some(code) {
        return Stage::Go(from);
    }
    rows::text(s, from.passed(), rows, kind, Rule::Line, level)
}

// Lines of one kind and level, and the 01 behind them: "In a list of texts, 01 where an item would begin ends the list."
pub fn texts(s: &[u8], from: Reached, rows: &mut [u32], kind: u32, level: u32) -> Stage
    requires { ReadyAt s.now from }
    ensures { (t : meaning.Told) (q d : State) → Texts t q d kind level → StateReadAt t s.now q from rows.old result d rows.new }
{
    let mut here = from;
    loop {
        if peek(s, here.at) == Some(CLOSING) {
            return Stage::Go(here.passed());
        }
        let r = rows::text(s, here, rows, kind, Rule::Line, level);
        let Stage::Go(behind_text) = r else {
            return r;
        };
        here = behind_text;
    }
}

// Extras with this code, and the 01 behind them. A code above 256 is no byte: there are no extras. Most often there are none: whoever calls looks for the
// 01 first.
pub fn extras(s: &[u8], from: Reached, rows: &mut [u32], code: u32, level: u32, told: Told) -> Stage
    requires { (ReadyAt s.now from) × (code ≡ 256 → ⊥) }
    ensures { (q any d : State) → Extras (told_of told) q any d code level → StateReadAt (told_of told) s.now q from rows.old result d rows.new }
{
    let mut here = from;
    loop {
        let b = peek(s, here.at);
        let Some(found) = b else {
            return fault(b, here.at);
        };
        if found == CLOSING {
            return Stage::Go(here.passed());
        }
        if u32::from(found) != code {
            return fault(b, here.at);
        }
        let r = extra(s, here.passed(), rows, level, told);
        let Stage::Go(behind_extra) = r else {
            return r;
        };
        here = behind_extra;
    }
}

// An extra, after its code: "key text; any-value".
fn extra(s: &[u8], from: Reached, rows: &mut [u32], level: u32, told: Told) -> Stage
    requires { ReadyAt s.now from }
    ensures { (q d : State) → Shaped (told_of told) q d level 7 any_values → TextReadAt (told_of told) s.now extra_key line level q from rows.old result d rows.new }
{
    let key = rows::text(s, from, rows, Kind::ExtraKey as u32, Rule::Line, level);
    let Stage::Go(behind_key) = key else {
        return key;
    };
    rows::any(s, behind_key, rows, level, told)
}
