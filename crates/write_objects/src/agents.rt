// Agents, with the resolvers inside them, whose levels are counted up and down.
ghost use Rattle.std.specs.Prelude.{Bool, false, ◌-◌, ◌≤◌};
ghost use Rattle.meaning.specs.Editions.{state, after_name, after_addresses, after_resolvers, parameters};
ghost use Rattle.meaning.specs.Reading.{level_most};
ghost use Rattle.meaning.specs.Told;
ghost use Rattle.table.specs.Told.{edition_of};
ghost use Rattle.write_rows.specs.Rooms.{NotAmong};
ghost use Rattle.write_rows.specs.Stages.{StageReady, OnwardAt, AdvanceAt, cells_from};
ghost use Rattle.write_objects.specs.Turns.{ListTurnAt, ListTurnReady, agent_names, agents_at, rows_and_levels};

use table::codes::{CLOSING, agent_extra};
use table::kinds::Kind;
use table::limits::LEVEL_MOST;
use table::told::Edition;
use values::text::Rule;
use write_rows::advance::{Misfit, Onto};
use write_rows::ahead::{opened, text};
use write_rows::extras::extras;
use write_rows::lay::put;
use write_rows::lent::Table;
use write_rows::texts::texts;

// Where a list of agents goes on, and at which level; or where the whole list has ended.
#[derive(Clone, Copy)]
pub enum ListTurn {
    On { onto: Onto, level: u32 },
    Done(Onto),
}

// "optionally 02 and addresses (texts, then 01)": lays an agent's addresses from row i on. Answers the row and the place behind them;
// where row i does not open addresses, both are as they were and nothing is laid.
fn addresses(table: &Table, i: usize, level: u32, output: &mut [u8], at: usize) -> Onto
    requires { StageReady table.now i output.old at }
    ensures { (edition : Told.Edition) (single : Bool) → OnwardAt edition table.now i (state after_name level single) result.row (state after_addresses level single) output.old at output.new result.at }
{
    let code = Some(0x02);
    let t = opened(
        table,
        i,
        Kind::AddressesOpen as u32,
        level,
        code,
        output,
        at,
    );
    let Some(p) = t else {
        return Onto { row: i, at };
    };
    texts(table, i + 1, Kind::Address as u32, level, output, p)
}

// "extras, 01": lays the end of an agent from row i on. Answers that its list goes on at this level; for the one agent of `from`,
// that its parameter has ended. Refuses the row behind an extra's key that is no any-value.
fn agent_ends(
    table: &Table,
    i: usize,
    level: u32,
    single: bool,
    edition: Edition,
    output: &mut [u8],
    at: usize,
) -> Result<ListTurn, Misfit>
    requires { ListTurnReady table.now i level output.old at }
    ensures { ListTurnAt (edition_of edition) single table.now i (state after_resolvers level single) (rows_and_levels table.now.rows.now i level) output.old at result output.new }
{
    let code = Some(agent_extra(edition));
    let onto = extras(table, i, level, code, output, at)?;
    if single & (level == 1) {
        return Ok(ListTurn::Done(onto));
    }
    Ok(ListTurn::On { onto, level })
}

// Lays the 01 of a list before row i, which names no agent of this level. At level 1 that ends the parameter; deeper it ends the resolvers
// of the agent above, and that agent too. Refuses row i where the one agent of `from` has to stand.
fn list_ends(
    table: &Table,
    i: usize,
    level: u32,
    single: bool,
    edition: Edition,
    output: &mut [u8],
    at: usize,
) -> Result<ListTurn, Misfit>
    requires { (ListTurnReady table.now i level output.old at) × NotAmong agent_names level (cells_from table.now i) }
    ensures { ListTurnAt (edition_of edition) single table.now i (agents_at level single) (rows_and_levels table.now.rows.now i level - 1) output.old at result output.new }
{
    if level == 1 {
        if single {
            return Err(Misfit { row: i });
        }
        let end = put(output, at, CLOSING);
        return Ok(ListTurn::Done(Onto { row: i, at: end }));
    }
    let p = put(output, at, CLOSING);
    agent_ends(table, i, level - 1, single, edition, output, p)
}

// "optionally 02 and addresses .., optionally 03 and resolvers": lays what stands behind an agent's name, from row i on, up to where its
// resolvers open, or all of it. Refuses what the agent's end does.
fn behind_name(
    table: &Table,
    i: usize,
    level: u32,
    single: bool,
    edition: Edition,
    output: &mut [u8],
    at: usize,
) -> Result<ListTurn, Misfit>
    requires { (ListTurnReady table.now i level output.old at) × (level ≤ level_most) }
    ensures { ListTurnAt (edition_of edition) single table.now i (state after_name level single) (rows_and_levels table.now.rows.now i level) output.old at result output.new }
{
    let s = addresses(table, i, level, output, at);
    let row = s.row;
    let p = s.at;
    let o = opened(
        table,
        row,
        Kind::ResolversOpen as u32,
        level,
        Some(0x03),
        output,
        p,
    );
    let Some(behind) = o else {
        return agent_ends(table, row, level, single, edition, output, p);
    };
    Ok(ListTurn::On {
        onto: Onto {
            row: row + 1,
            at: behind,
        },
        level: level + 1,
    })
}

// "Agent: 02, name text, ..": lays the agent that row i names, up to where its resolvers open, or all of it; or the list's end, where row i names none.
// Refuses row i if its level is past the limit, and what the agent's or the list's end does.
fn agent(
    table: &Table,
    i: usize,
    level: u32,
    single: bool,
    edition: Edition,
    output: &mut [u8],
    at: usize,
) -> Result<ListTurn, Misfit>
    requires { ListTurnReady table.now i level output.old at }
    ensures { ListTurnAt (edition_of edition) single table.now i (agents_at level single) (rows_and_levels table.now.rows.now i level - 1) output.old at result output.new }
{
    let t = text(
        table,
        i,
        Kind::AgentName as u32,
        Rule::Line,
        level,
        Some(0x02),
        output,
        at,
    );
    let Some(p) = t else {
        return list_ends(table, i, level, single, edition, output, at);
    };
    if LEVEL_MOST < level {
        return Err(Misfit { row: i });
    }
    behind_name(table, i + 1, level, single, edition, output, p)
}

// "Agent list: agents, then 01"; or the one agent of `from`. Lays it from row `from` on. Answers the row and the place behind it.
// Refuses what a turn of the list does. A loop, and no chain over the rows: row, place and level of the next turn only the last one says.
pub fn agents(
    table: &Table,
    from: usize,
    single: bool,
    edition: Edition,
    output: &mut [u8],
    at: usize,
) -> Result<Onto, Misfit>
    requires { StageReady table.now from output.old at }
    ensures { AdvanceAt (edition_of edition) table.now from (agents_at 1 single) (state parameters 0 false) output.old at result output.new }
{
    let mut here = Onto { row: from, at };
    let mut level: u32 = 1;
    loop {
        let turn = agent(table, here.row, level, single, edition, output, here.at)?;
        match turn {
            ListTurn::Done(end) => return Ok(end),
            ListTurn::On { onto, level: next } => {
                here = onto;
                level = next;
            }
        }
    }
}
