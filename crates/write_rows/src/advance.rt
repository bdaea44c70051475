// What the functions of the writer answer: each lays the rows that stand where it is, and leaves the first other row to the next.
// One row tried answers the place behind its bytes, or None: it stands elsewhere, and nothing was laid.
ghost use Rattle.std.specs.Prelude.{◌≡◌, ◌≤◌};
ghost use Rattle.table.specs.declared.answers.Fault.{Fault};
ghost use Rattle.table.specs.declared.refusals.Refusal.TheVariants.{TableWrong};
ghost use Rattle.write_rows.specs.Stages.{after_needed};

use table::answers::Fault;
use table::refusals::Refusal;

// The row ahead, and the place behind what was laid.
#[derive(Clone, Copy)]
pub struct Onto {
    pub row: usize,
    pub at: usize,
}

// "15: .. row number from 0": the row that fits nowhere.
#[derive(Clone, Copy)]
pub struct Misfit {
    pub row: usize,
}

impl From<Misfit> for Fault {
    ghost from_gives = { λ misfit fault. fault ≡ record { refusal = TableWrong; at = misfit.row } };

    // "15: rows up to here begin no table of this edition, .. or rows or slice end early": the refusal at a row.
    fn from(misfit: Misfit) -> Self {
        Refusal::TableWrong.at(misfit.row)
    }
}

// Takes what trying row i answered, where some row has to stand. Answers the way on behind it, or that row i fits nowhere.
pub fn needed(tried: Option<usize>, i: usize) -> Result<Onto, Misfit>
    requires { i ≤ 4611686018427387903 }
    ensures { result ≡ after_needed i tried }
{
    let at = tried.ok_or(Misfit { row: i })?;
    Ok(Onto { row: i + 1, at })
}
