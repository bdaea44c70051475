// "Extra: code 04 in B, 05 in D; key text; any-value."
ghost use Rattle.std.specs.Prelude.{Bool};
ghost use Rattle.meaning.specs.Told.{Edition};
ghost use Rattle.meaning.specs.Kinds.{extra_key};
ghost use Rattle.meaning.specs.Editions.{Room, State, state};
ghost use Rattle.table.specs.Codes.{code_number};
ghost use Rattle.write_rows.specs.Rooms.{ExtrasIn};
ghost use Rattle.write_rows.specs.Stages.{StageReady, AdvanceAt};

use crate::advance::{Misfit, Onto};
use crate::ahead::text;
use crate::any::any;
use crate::lay::put;
use crate::lent::Table;
use table::codes::CLOSING;
use table::kinds::Kind;
use values::text::Rule;

// Lays every extra of this level from row `from` on, each behind the code, and the 01. Answers the first row that is no key, and the
// place behind the 01. Refuses the row behind a key that is no any-value.
// Most often there are none, so the row ahead is looked at before anything is called.
pub fn extras(
    table: &Table,
    from: usize,
    level: u32,
    code: Option<u8>,
    output: &mut [u8],
    at: usize,
) -> Result<Onto, Misfit>
    requires { StageReady table.now from output.old at }
    ensures { (edition : Edition) (room : Room) (single : Bool) (st₁ : State) → ExtrasIn edition room level single (code_number code) st₁ →
        AdvanceAt edition table.now from (state room level single) st₁ output.old at result output.new }
{
    let Some(_) = table.look_for(from, Kind::ExtraKey as u32, level) else {
        return Ok(Onto {
            row: from,
            at: put(output, at, CLOSING),
        });
    };
    some_extras(table, from, level, code, output, at)
}

// The same, extra by extra, for whoever looks for no row ahead. It is kept out of its callers, so that these stay short.
// A loop, and no chain over the rows: where the next extra is laid only the last one says, and each may be the last.
#[inline(never)]
pub fn some_extras(
    table: &Table,
    from: usize,
    level: u32,
    code: Option<u8>,
    output: &mut [u8],
    at: usize,
) -> Result<Onto, Misfit>
    requires { StageReady table.now from output.old at }
    ensures { (edition : Edition) (room : Room) (single : Bool) (st₁ : State) → ExtrasIn edition room level single (code_number code) st₁ →
        AdvanceAt edition table.now from (state room level single) st₁ output.old at result output.new }
{
    let mut i = from;
    let mut p = at;
    loop {
        let t = text(
            table,
            i,
            Kind::ExtraKey as u32,
            Rule::Line,
            level,
            code,
            output,
            p,
        );
        let Some(q) = t else {
            return Ok(Onto {
                row: i,
                at: put(output, p, CLOSING),
            });
        };
        i += 1;
        let v = any(table, i, level, output, q);
        p = v.ok_or(Misfit { row: i })?;
        i += 1;
    }
}
