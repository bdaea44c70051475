// "Parameters, any order, repeats allowed", and the 01 behind them.
ghost use Rattle.std.specs.Prelude.{false};
ghost use Rattle.meaning.specs.Editions.{state, closed};
ghost use Rattle.table.specs.Told.{edition_of};
ghost use Rattle.write_rows.specs.Stages.{AdvanceAt, StageReady, at_parameters};
ghost use Rattle.write_inside.specs.Parameters.{FoundAt};

use crate::parameter::{
    behaviour, encrypted, naming, one_text, own_parameter, payload_length, received_in, represented,
};
use table::codes::CLOSING;
use table::kinds::Kind;
use table::told::Edition;
use values::text::Rule;
use write_rows::advance::{Misfit, Onto};
use write_rows::lay::put;
use write_rows::lent::Table;

// Lays the parameter that row i begins, by the kind of row i. None begins there if no parameter begins with a row of that kind.
fn by_kind(
    table: &Table,
    i: usize,
    edition: Edition,
    output: &mut [u8],
    at: usize,
) -> Result<Option<Onto>, Misfit>
    requires { StageReady table.now i output.old at }
    ensures { FoundAt (edition_of edition) table.now i output.old at result output.new }
{
    let Some(r) = table.ahead(i) else {
        return Ok(None);
    };
    let Ok(kind) = Kind::try_from(r.kind) else {
        return Ok(None);
    };
    match kind {
        Kind::StandardRepresentation | Kind::OwnRepresentation => represented(
            table, i, kind, output, at,
        ),
        Kind::ReceivedBy => received_in(table, i, edition, output, at),
        Kind::ToOpens | Kind::FromOpens | Kind::ReceiverOpens => naming(
            table, i, kind, edition, output, at,
        ),
        Kind::Comments => Ok(one_text(table, i, Kind::Comments, Rule::Note, 0x05, output, at)),
        Kind::PayloadLength => Ok(payload_length(table, i, output, at)),
        Kind::PayloadEncoding => Ok(one_text(
            table,
            i,
            Kind::PayloadEncoding,
            Rule::Line,
            0x07,
            output,
            at,
        )),
        Kind::EncryptedOpens => Ok(encrypted(table, i, edition, output, at)),
        Kind::OwnKey => own_parameter(table, i, output, at),
        Kind::BehaviourOpens => behaviour(table, i, output, at),
        _ => Ok(None),
    }
}

// Lays every parameter from row `from` on, and the 01. Answers the first row that begins none, and the place behind the 01.
// Refuses what a parameter does. A `while let`, and no chain over the rows: where the next one begins only the last one says.
pub fn parameters(
    table: &Table,
    from: usize,
    edition: Edition,
    output: &mut [u8],
    at: usize,
) -> Result<Onto, Misfit>
    requires { StageReady table.now from output.old at }
    ensures { AdvanceAt (edition_of edition) table.now from at_parameters (state closed 0 false) output.old at result output.new }
{
    let mut here = Onto { row: from, at };
    while let Some(next) = by_kind(table, here.row, edition, output, here.at)? {
        here = next;
    }
    Ok(Onto {
        row: here.row,
        at: put(output, here.at, CLOSING),
    })
}
