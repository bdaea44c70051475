// The row behind all that belongs to a row, where the skip numbers of the rows behind it are right: each hop passes over a row and its rows.
ghost use Rattle.std.specs.Prelude.{ℕ, Bool, ◌≡◌, ◌≤◌};
ghost use Rattle.meaning.specs.Skips.{rank, belongs};
ghost use Rattle.laws_steps.specs.Hopping.{rank_at, skip_at};
ghost use Rattle.skips.specs.Owners.{Hoppable, Owned, deeper_test, above_test};

use crate::owner::is_above;
use table::rows::{kind_at, level_at, skip_at};

// Takes row i of n, to which all deeper rows belong and no others. Answers the row behind them.
pub fn deeper_end(rows: &[u32], n: usize, i: usize) -> usize
    requires { Hoppable rows.now n i × Owned rows.now i deeper_test }
    ensures { (result ≡ skip_at rows.now n i) × (result ≤ n) }
{
    let at = level_at(rows, i);
    owned_end(rows, n, i, |_kind, level| at < level)
}

// Takes row i of n, to which all deeper rows belong, and those beside it of a kind above this one. Answers the row behind them.
pub fn above_end(rows: &[u32], n: usize, i: usize, above: u32) -> usize
    requires { Hoppable rows.now n i × Owned rows.now i (above_test above) }
    ensures { (result ≡ skip_at rows.now n i) × (result ≤ n) }
{
    let at = level_at(rows, i);
    owned_end(rows, n, i, |kind, level| is_above(above, at, kind, level))
}

// Takes row i of n, and a test by kind and level that tells the rows that belong to it. Answers the row behind them.
fn owned_end<F: Fn(u32, u32) -> bool>(rows: &[u32], n: usize, i: usize, is_owned: F) -> usize
    requires hoppable { Hoppable rows.now n i }
    requires callable { F.IsAlwaysCallable is_owned }
    requires tells { (kind level : ℕ) (told : Bool) → F.post is_owned kind level told → told ≡ belongs (rank_at rows.now i) (rank kind level) }
    ensures { (result ≡ skip_at rows.now n i) × (result ≤ n) }
{
    let mut j = i + 1;
    while j < n && is_owned(kind_at(rows, j), level_at(rows, j)) {
        j = skip_at(rows, j);
    }
    j
}
