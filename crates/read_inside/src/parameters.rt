// "Parameters, any order, repeats allowed", up to the envelope's 01.
// Each function answers the place behind what it read with the rows then, or the first refusal.
ghost use Rattle.std.specs.Prelude.{length, ◌≡◌, true, false, ◌<◌};
ghost use Rattle.meaning.specs.Bytes.{line};
ghost use Rattle.meaning.specs.Kinds.{own_key, from_opens, behaviour_opens};
ghost use Rattle.meaning.specs.Told as meaning;
ghost use Rattle.meaning.specs.Editions.{state, parameters, own_text, agent_list, one_agent, received_begins, behaviour_value, closed};
ghost use Rattle.table.specs.Kinds.{number_of};
ghost use Rattle.table.specs.Told.{told_of};
ghost use Rattle.read_rows.specs.Stages.{ReadyAt, PeekedAt, StateReadAt, TextReadAt};
ghost use Rattle.read_inside.specs.Stages.{OpenedReadAt, ParameterReadAt};

use read_objects::agents::{read_list, read_one};
use read_objects::received::read_received;
use read_rows::look::{fault, in_parts, peek};
use read_rows::{rows, texts};
use table::answers::{Reached, Stage};
use table::codes::CLOSING;
use table::kinds::Kind;
use table::refusals::Refusal;
use table::told::{Edition, Told};
use values::text::Rule;

// All parameters, and the 01 that closes the envelope.
pub fn read_parameters(s: &[u8], from: Reached, rows: &mut [u32], told: Told) -> Stage
    requires { ReadyAt s.now from }
    ensures { StateReadAt (told_of told) s.now (state parameters 0 false) from rows.old result (state closed 0 false) rows.new }
{
    let mut here = from;
    loop {
        let b = peek(s, here.at);
        let Some(code) = b else {
            return fault(b, here.at);
        };
        if code == CLOSING {
            return Stage::Go(here.passed());
        }
        let r = read_parameter(s, here, rows, code, told);
        let Stage::Go(behind_parameter) = r else {
            return r;
        };
        here = behind_parameter;
    }
}

// One parameter, from its code on.
fn read_parameter(s: &[u8], from: Reached, rows: &mut [u32], code: u8, told: Told) -> Stage
    requires { (ReadyAt s.now from) × (PeekedAt s.now from.at code) × (code ≡ 1 → ⊥) }
    ensures { ParameterReadAt (told_of told) s.now from rows.old result rows.new }
{
    match code {
        0x00 => own_parameter(s, from.passed(), rows),
        0x02 => open_list(s, from, rows, Kind::ToOpens, told),
        0x03 => open_one(s, from, rows, told),
        0x04 => rows::representation(s, from.passed(), rows),
        0x05 => rows::text(s, from.passed(), rows, Kind::Comments as u32, Rule::Note, 0),
        0x06 => rows::number(s, from.passed(), rows),
        0x07 => rows::text(
            s,
            from.passed(),
            rows,
            Kind::PayloadEncoding as u32,
            Rule::Line,
            0,
        ),
        0x08 => open_encrypted(s, from, rows, told),
        0x09 => open_list(s, from, rows, Kind::ReceiverOpens, told),
        0x0a => received_object(s, from.passed(), rows, told),
        0x0b => open_behaviour(s, from, rows, told),
        _ => Stage::Refused(Refusal::CodeWrong.at(from.at)),
    }
}

// "0A received object", after the code. A function of its own, so that only this parameter's way hands the input on to a call through memory.
fn received_object(s: &[u8], from: Reached, rows: &mut [u32], told: Told) -> Stage
    requires { ReadyAt s.now from }
    ensures { StateReadAt (told_of told) s.now (state received_begins 0 false) from rows.old result (state parameters 0 false) rows.new }
{
    in_parts(read_received(s, from, rows, told))
}

// "00 own key text, value text", after the code: the key a line, the value a note.
fn own_parameter(s: &[u8], from: Reached, rows: &mut [u32]) -> Stage
    requires { ReadyAt s.now from }
    ensures { (t : meaning.Told) → TextReadAt t s.now own_key line 0 (state own_text 0 false) from rows.old result (state parameters 0 false) rows.new }
{
    let key = rows::text(s, from, rows, Kind::OwnKey as u32, Rule::Line, 0);
    let Stage::Go(behind_key) = key else {
        return key;
    };
    rows::text(s, behind_key, rows, Kind::OwnValue as u32, Rule::Note, 0)
}

// "02 `to`, agent list"; "09 intended receiver, agent list", from the code on. The opening row has this kind.
// The 01 of an empty list is looked for before anything is called.
fn open_list(s: &[u8], from: Reached, rows: &mut [u32], kind: Kind, told: Told) -> Stage
    requires { (ReadyAt s.now from) × (from.at < length s.now) }
    ensures { OpenedReadAt (told_of told) s.now (number_of kind) (state agent_list 1 false) from rows.old result (state parameters 0 false) rows.new }
{
    let opened = rows::open(rows, from, kind, 0);
    if peek(s, opened.at) == Some(CLOSING) {
        return Stage::Go(opened.passed());
    }
    read_list(s, opened, rows, 1, told)
}

// "03 `from`, one agent", from the code on.
fn open_one(s: &[u8], from: Reached, rows: &mut [u32], told: Told) -> Stage
    requires { (ReadyAt s.now from) × (from.at < length s.now) }
    ensures { OpenedReadAt (told_of told) s.now from_opens (state one_agent 1 true) from rows.old result (state parameters 0 false) rows.new }
{
    let opened = rows::open(rows, from, Kind::FromOpens, 0);
    read_one(s, opened, rows, told)
}

// "0B transport behaviour, an any-value", from the code on.
fn open_behaviour(s: &[u8], from: Reached, rows: &mut [u32], told: Told) -> Stage
    requires { (ReadyAt s.now from) × (from.at < length s.now) }
    ensures { OpenedReadAt (told_of told) s.now behaviour_opens (state behaviour_value 0 false) from rows.old result (state parameters 0 false) rows.new }
{
    let opened = rows::open(rows, from, Kind::BehaviourOpens, 0);
    rows::behaviour(s, opened, rows, told)
}

// "08 encrypted, texts then 01 (B only)", from the code on; in D the code is refused.
fn open_encrypted(s: &[u8], from: Reached, rows: &mut [u32], told: Told) -> Stage
    requires { (ReadyAt s.now from) × (PeekedAt s.now from.at 8) }
    ensures { ParameterReadAt (told_of told) s.now from rows.old result rows.new }
{
    let Edition::B = told.edition else {
        return Stage::Refused(Refusal::CodeWrong.at(from.at));
    };
    let opened = rows::open(rows, from, Kind::EncryptedOpens, 0);
    texts::texts(s, opened, rows, Kind::EncryptedItem as u32, 0)
}
