// Document 02, order 2: the relay. "The gateway may not alter an envelope it received; it puts a new one in front."
#![tactic(auto)]

ghost use Rattle.std.specs.Prelude.{◌≡◌, ◌≤◌, ℕ, length};
ghost use Rattle.meaning.specs.Told.{label_of, known};
ghost use Rattle.meaning.specs.Headers.{envelope_most};
ghost use Rattle.meaning.specs.Memory.{laid_over, skips_held};
ghost use Rattle.meaning.specs.Relay.{extension_plan};
ghost use Rattle.laws_steps.specs.Rows.{cells_at};
ghost use Rattle.table.specs.Told.{edition_of};
ghost use Rattle.write_envelopes.specs.Whole.{verdict_is};
ghost use Rattle.relay.specs.Promise.{RelayPromise, new_verdict, OneMoreFits, Joinable, JudgedAs};

use frames::count::count_envelopes;
use reader::{count_in, fill, room_with};
use table::answers::{Fault, Reached, Stage};
use table::limits::{ENVELOPE_MOST, ENVELOPES_MOST};
use table::refusals::Refusal;
use table::reply::Reply;
use table::rows::room;
use table::told::{Edition, Strictness, Told};
use write_envelopes::extension::{check_extension, put_extension};
use write_envelopes::measure::size_of;
use write_rows::lent::Table;
use writer::skips_before;

// What is joined, once it is checked: how far the old header reaches, and how many bytes the new envelope has inside.
#[derive(Clone, Copy)]
struct Joint {
    old: Reached,
    inside: usize,
}

// Takes an edition's number, the old input, the new table and the pool that it views. Lays the new envelope and the old header over the front of `output`,
// fills `rows` and `words` with what the reader gives for them, and answers 0, the joined header's length and the joined row count. The old payload
// is not copied. Refuses, in this order, an unknown edition (1), what the reader refuses of the old input, a new table that is not one
// extension (15), a seventeenth envelope or a new one over the limit (5, at row 0), too little room for the joined rows (14) and for the
// joined header (16). A refusal changes nothing lent.
pub fn relay(
    edition: u32,
    input: &[u8],
    table: &[u32],
    pool: &[u8],
    rows: &mut [u32],
    words: &mut [u32],
    output: &mut [u8],
) -> Reply
    ensures { RelayPromise edition input.now table.now pool.now rows.old words.old output.old result rows.new words.new output.new }
{
    let Ok(known) = Edition::try_from(edition) else {
        return Reply::from(Refusal::EditionUnknown.at(0));
    };
    let new = Table { rows: table, pool };
    match check_joint(known, input, &new) {
        Err(fault) => Reply::from(fault),
        Ok(joint) => join(known, input, table, pool, rows, words, output, joint),
    }
}

// Takes the old input and the new table, in a known edition. Answers what may be joined. Refuses, in this order, what the reader refuses of the old
// input, what is wrong with the new table (15), and what passes the limits (5, at row 0).
fn check_joint(edition: Edition, input: &[u8], new: &Table) -> Result<Joint, Fault>
    ensures { JudgedAs (edition_of edition) input.now new.now.rows.now new.now.pool.now result }
{
    let old = match count_in(edition, input) {
        Stage::Refused(fault) => return Err(fault),
        Stage::Go(to) => to,
    };
    let inside = check_new(edition, new)?;
    if one_more_fits(input, inside) {
        return Ok(Joint { old, inside });
    }
    Err(Refusal::EnvelopeLimit.at(0))
}

// Takes the new table's rows. Answers how many bytes its envelope has inside. Refuses (15) what is no table of one extension, and then a wrong skip
// number.
fn check_new(edition: Edition, new: &Table) -> Result<usize, Fault>
    ensures { verdict_is result ≡ new_verdict (skips_held new.now.rows.now) (extension_plan (edition_of edition) (cells_at new.now.pool.now new.now.rows.now 0)) }
{
    let inside = check_extension(edition, new)?;
    skips_before(new.rows, Ok(inside))
}

// Takes an accepted old input, and how many bytes the new envelope has inside. Answers whether it may stand in front: "5 at row 0 for a 17th envelope or a
// new one over the limit".
fn one_more_fits(input: &[u8], inside: usize) -> bool
    requires { inside ≤ envelope_most }
    ensures { OneMoreFits input.now inside result }
{
    count_envelopes(input) < ENVELOPES_MOST && size_of(inside) <= ENVELOPE_MOST
}

// Takes an old input and a new table, in a known edition, which may be joined. Refuses too little room: "14, room for the joined rows, at the joined
// header's length with the rows needed; 16". Else the new envelope is laid, and the part of the output behind it is lent on, to be filled with
// the old header; what the reader gives for both are the rows and words.
fn join(
    edition: Edition,
    input: &[u8],
    table: &[u32],
    pool: &[u8],
    rows: &mut [u32],
    words: &mut [u32],
    output: &mut [u8],
    joint: Joint,
) -> Reply
    requires { Joinable (edition_of edition) input.now table.now pool.now joint }
    ensures { (number : ℕ) → label_of number ≡ known (edition_of edition) →
        RelayPromise number input.now table.now pool.now rows.old words.old output.old result rows.new words.new output.new }
{
    let size = size_of(joint.inside);
    let to = Reached {
        at: size + joint.old.at,
        rows: room(table.len()) + joint.old.rows,
    };
    if room_with(rows.len(), words.len()) < to.rows {
        return Reply {
            answer: Refusal::RowsShort.answer(),
            place: to.at,
            rows: to.rows,
        };
    }
    if output.len() < to.at {
        return Reply::from(Refusal::OutputShort.at(to.at));
    }
    let new = Table { rows: table, pool };
    put_extension(edition, &new, joint.inside, output);
    lay(&input[..joint.old.at], &mut output[size..]);
    let told = Told {
        edition,
        strictness: Strictness::Strict,
    };
    fill(told, output, rows, words, to)
}

// Over the front of `output`; nothing behind it changes. A loop, since a slice's own copy asks the archive's users for memmove.
fn lay(bytes: &[u8], output: &mut [u8])
    requires { length bytes.now ≤ length output.old }
    ensures { output.new ≡ laid_over output.old bytes.now }
{
    for (i, b) in bytes.iter().enumerate() {
        output[i] = *b;
    }
}
