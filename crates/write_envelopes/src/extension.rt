// Order 2: a table of one extension envelope and nothing else.
ghost use Rattle.std.specs.Prelude.{◌≡◌};
ghost use Rattle.meaning.specs.Relay.{extension_plan};
ghost use Rattle.table.specs.Told.{edition_of};
ghost use Rattle.write_rows.specs.Stages.{cells_from};
ghost use Rattle.write_envelopes.specs.Whole.{verdict_is};
ghost use Rattle.write_envelopes.specs.Extension.{extension_verdict, ExtensionFits, ExtensionLaid};

use crate::envelope::put_envelope;
use crate::measure::{ENVELOPES, Sizes, ended, measure};
use table::answers::Fault;
use table::refusals::Refusal;
use table::told::Edition;
use write_inside::body::open_at;
use write_rows::lent::Table;

// Takes all rows. Answers how many bytes the envelope has inside; past the limit, a number that is past it too.
// "15 for the new table (any first row but kind 1, or a second envelope)": refuses the first row that begins no such table, and rows or a slice that end
// early.
pub fn check_extension(edition: Edition, table: &Table) -> Result<usize, Fault>
    ensures { verdict_is result ≡ extension_verdict (extension_plan (edition_of edition) (cells_from table.now 0)) }
{
    let Some(base) = open_at(table, 0) else {
        return Err(Refusal::TableWrong.at(0));
    };
    if base {
        return Err(Refusal::TableWrong.at(0));
    }
    let inside = measure(edition, table, 1, false)?;
    let sizes = Sizes {
        left: ENVELOPES,
        total: inside.many,
        over: None,
    };
    ended(table, inside.row, sizes)
}

// Takes such a table's rows, once they are checked, and how many bytes the envelope has inside. Lays it over the front of `output`; bytes behind it are as they
// were.
pub fn put_extension(edition: Edition, table: &Table, many: usize, output: &mut [u8])
    requires { ExtensionFits (edition_of edition) table.now.rows.now table.now.pool.now many output.old }
    ensures { ExtensionLaid (edition_of edition) table.now.rows.now table.now.pool.now output.old output.new }
{
    let _ = put_envelope(edition, table, 1, false, many, output, 0);
}
