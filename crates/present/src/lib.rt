// Document 02, order 1: present values. "The delivery desk wants one value for each parameter": the first that the envelopes have, in their order.
#![tactic(auto)]

ghost use Rattle.std.specs.Prelude.{◌≡◌, true, ◌<◌};
ghost use Rattle.meaning.specs.Codes.{has_value, can_ask};
ghost use Rattle.meaning.specs.Memory.{room_of};
ghost use Rattle.meaning.specs.Present.{answered_by, checked};
ghost use Rattle.laws_steps.specs.Hopping.{rank_at};
ghost use Rattle.laws_tables.specs.Passing.{first_at};
ghost use Rattle.laws_tables.specs.PresentValues.{Walkable};
ghost use Rattle.table.specs.Reply.{reply_of};
ghost use Rattle.table.specs.Told.{edition_of};
ghost use Rattle.present.specs.Promise.{PresentPromise, next_looked};

use table::kinds::Kind;
use table::parameters::{can_ask, code_of};
use table::refusals::Refusal;
use table::reply::Reply;
use table::rows::{kind_at, level_at, room, skip_at};
use table::told::Edition;
use writer::check_rows;

// Takes an edition's number, rows, the pool that they view, and a parameter's code. Answers 0, the row that opens or holds its present value (the row
// count for none), and the row count. Refuses an unknown edition (1), then a code that cannot be asked for (17, at 0), then what the writer refuses of
// the rows (15 and 5). Changes nothing.
pub fn present(edition: u32, rows: &[u32], pool: &[u8], code: u32) -> Reply
    ensures { PresentPromise edition rows.now pool.now code result }
{
    let Ok(known) = Edition::try_from(edition) else {
        return Reply::from(Refusal::EditionUnknown.at(0));
    };
    if can_ask(code) {
        return present_in(known, rows, pool, code);
    }
    Reply::from(Refusal::ParameterUnknown.at(0))
}

// The same in a known edition, of a code that can be asked for.
fn present_in(edition: Edition, rows: &[u32], pool: &[u8], code: u32) -> Reply
    requires { can_ask code ≡ true }
    ensures { reply_of result ≡ answered_by rows.now code (checked (edition_of edition) rows.now pool.now) }
{
    match check_rows(edition, rows, pool) {
        Err(fault) => Reply::from(fault),
        Ok(_) => Reply {
            answer: 0,
            place: first_value(rows, code),
            rows: room(rows.len()),
        },
    }
}

// Takes the rows of a table. Answers the first that opens or holds a value with this code, or the row count: into each envelope, and from any other row
// to its skip number, since what belongs to it has no value.
fn first_value(rows: &[u32], code: u32) -> usize
    requires { Walkable rows.now × (can_ask code ≡ true) }
    ensures { result ≡ first_at code rows.now (room_of rows.now) 0 }
{
    let n = room(rows.len());
    let mut i: usize = 0;
    while i < n {
        if has_value(rows, i, code) {
            return i;
        }
        i = next_looked(rows, i);
    }
    n
}

// Takes a row's number. Answers whether it opens or holds a value with this code: codes inside agents and received objects are no parameters.
fn has_value(rows: &[u32], i: usize, code: u32) -> bool
    requires { i < room_of rows.now }
    ensures { result ≡ has_value code (rank_at rows.now i) }
{
    if level_at(rows, i) != 0 {
        return false;
    }
    code_of(kind_at(rows, i)) == code
}

// Takes a row's number. Answers the next row to look at: the one behind it where it is an envelope's, else the one behind all that belongs to it.
fn next_looked(rows: &[u32], i: usize) -> usize
    requires { i < room_of rows.now }
    ensures { result ≡ next_looked rows.now i }
{
    let Ok(kind) = Kind::try_from(kind_at(rows, i)) else {
        return skip_at(rows, i);
    };
    match kind {
        Kind::ExtensionOpens => i + 1,
        Kind::BaseOpens => i + 1,
        _ => skip_at(rows, i),
    }
}
