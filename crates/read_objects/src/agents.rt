// "Agent: 02, name text, optionally 02 and addresses (texts, then 01), optionally 03 and resolvers (an agent list), extras, 01."
// Each function answers the place behind what it read with the rows then, or the first refusal.
ghost use Rattle.std.specs.Prelude.{Bool, true, false, ◌≤◌};
ghost use Rattle.meaning.specs.Bytes.{line};
ghost use Rattle.meaning.specs.Kinds.{agent_name};
ghost use Rattle.meaning.specs.Told as meaning;
ghost use Rattle.meaning.specs.Editions.{state, go, agent_ends, list_ends, agent_list, one_agent, after_name, after_addresses, after_resolvers, parameters};
ghost use Rattle.laws_steps.specs.Shapes.{InList};
ghost use Rattle.table.specs.Told.{told_of};
ghost use Rattle.read_rows.specs.Stages.{ReadyAt, StateReadAt, TextReadAt};

use read_rows::look::{fault, in_parts, peek};
use read_rows::{rows, texts};
use table::answers::{Reached, Stage};
use table::codes::{CLOSING, agent_extra};
use table::kinds::Kind;
use table::limits::LEVEL_MOST;
use table::refusals::Refusal;
use table::told::Told;
use values::text::Rule;

// The code before an agent in a list or in `from`, and before an agent's addresses.
const AGENT: u8 = 0x02;

const ADDRESSES: u8 = 0x02;

const RESOLVERS: u8 = 0x03;

// "Agent list: agents, then 01", the agents of this level; "12: agent of level 9, its 02". It is put into the agent: as two frames for each level, eight
// levels took two thirds more stack and a fifth more instructions.
#[cycle(read_agent_read_list)]
#[inline(always)]
pub fn read_list(s: &[u8], from: Reached, rows: &mut [u32], level: u32, told: Told) -> Stage
    requires { (ReadyAt s.now from) × (1 ≤ level) × (level ≤ 9) }
    ensures { (single : Bool) → InList level single →
        StateReadAt (told_of told) s.now (state agent_list level single) from rows.old result (go list_ends (state agent_list level single)) rows.new }
{
    let mut here = from;
    loop {
        let b = peek(s, here.at);
        let Some(code) = b else {
            return fault(b, here.at);
        };
        if code == CLOSING {
            return Stage::Go(here.passed());
        }
        if code != AGENT {
            return fault(b, here.at);
        }
        if LEVEL_MOST < level {
            return Stage::Refused(Refusal::AgentLevel.at(here.at));
        }
        let r = read_agent(s, here.passed(), rows, level, told);
        let Stage::Go(behind_agent) = r else {
            return r;
        };
        here = behind_agent;
    }
}

// The one agent of `from`, from its 02 on.
pub fn read_one(s: &[u8], from: Reached, rows: &mut [u32], told: Told) -> Stage
    requires { ReadyAt s.now from }
    ensures { StateReadAt (told_of told) s.now (state one_agent 1 true) from rows.old result (state parameters 0 false) rows.new }
{
    let b = peek(s, from.at);
    if b != Some(AGENT) {
        return fault(b, from.at);
    }
    read_agent(s, from.passed(), rows, 1, told)
}

// An agent of this level, after its 02 and up to its 01.
#[cycle(read_agent_read_list)]
fn read_agent(s: &[u8], from: Reached, rows: &mut [u32], level: u32, told: Told) -> Stage
    requires { (ReadyAt s.now from) × (1 ≤ level) × (level ≤ 8) }
    ensures { (single : Bool) →
        TextReadAt (told_of told) s.now agent_name line level (state after_name level single) from rows.old result (go agent_ends (state after_resolvers level single)) rows.new }
{
    let named = name_and_addresses(s, from, rows, level);
    let Stage::Go(behind_addresses) = named else {
        return named;
    };
    if peek(s, behind_addresses.at) != Some(RESOLVERS) {
        return behind_resolvers(s, behind_addresses, rows, level, told);
    }
    let opened = rows::open(rows, behind_addresses, Kind::ResolversOpen, level);
    let resolvers = read_list(s, opened, rows, level + 1, told);
    let Stage::Go(behind_list) = resolvers else {
        return resolvers;
    };
    behind_resolvers(s, behind_list, rows, level, told)
}

// After an agent's 02: its name, and its addresses where it has them.
fn name_and_addresses(s: &[u8], from: Reached, rows: &mut [u32], level: u32) -> Stage
    requires { ReadyAt s.now from }
    ensures { (t : meaning.Told) (single : Bool) →
        TextReadAt t s.now agent_name line level (state after_name level single) from rows.old result (state after_addresses level single) rows.new }
{
    let name = rows::text(s, from, rows, Kind::AgentName as u32, Rule::Line, level);
    let Stage::Go(behind_name) = name else {
        return name;
    };
    if peek(s, behind_name.at) != Some(ADDRESSES) {
        return name;
    }
    let opened = rows::open(rows, behind_name, Kind::AddressesOpen, level);
    texts::texts(s, opened, rows, Kind::Address as u32, level)
}

// An agent's extras, most often none, and its 01.
fn behind_resolvers(s: &[u8], from: Reached, rows: &mut [u32], level: u32, told: Told) -> Stage
    requires { ReadyAt s.now from }
    ensures { (single : Bool) →
        StateReadAt (told_of told) s.now (state after_resolvers level single) from rows.old result (go agent_ends (state after_resolvers level single)) rows.new }
{
    if peek(s, from.at) == Some(CLOSING) {
        return Stage::Go(from.passed());
    }
    let code = agent_extra(told.edition);
    in_parts(texts::extras(s, from, rows, u32::from(code), level, told))
}
