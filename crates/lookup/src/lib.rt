// Order 8: a value found by hops over any rows and words lent, with the rows looked at counted.
#![tactic(auto)]

ghost use Rattle.std.specs.Prelude.{true, ◌&&◌, not, ◌≡◌, suc, ◌<◌, ◌≤◌, eqb, length, get_or};
ghost use Rattle.meaning.specs.Basics.{pick};
ghost use Rattle.meaning.specs.Codes.{can_ask};
ghost use Rattle.meaning.specs.Skips.{is_envelope};
ghost use Rattle.meaning.specs.Headers.{envelopes_most};
ghost use Rattle.meaning.specs.Lookup.{lacks, left_out, answers_at, looked_up, looked_reply};
ghost use Rattle.table.specs.Reply.{reply_of};
ghost use Rattle.lookup.specs.Promise.{LookupPromise};

use table::kinds::Kind;
use table::limits::ENVELOPES_MOST;
use table::parameters::{OWN_DATE, can_ask, code_of};
use table::refusals::Refusal;
use table::reply::Reply;
use table::rows::{kind_at, room, skip_at, whole};

// Takes rows, a word for each of their first sixteen envelopes, and the code of a parameter, or 20 for the base's own date. Answers 0, the row that
// opens or holds its value, or the row count where hops find none, and how many rows were looked at. Refuses, in this order, another code (17), fewer
// than sixteen words (14), a slice that is not whole rows (15, at their count), and a row looked at whose skip number does not lead on (15, at it).
pub fn lookup(rows: &[u32], words: &[u32], code: u32) -> Reply
    ensures { LookupPromise rows.now words.now code result }
{
    if !can_ask(code) {
        return Refusal::ParameterUnknown.at(0).into();
    }
    if words.len() < ENVELOPES_MOST as usize {
        return Refusal::RowsShort.at(0).into();
    }
    if !whole(rows.len()) {
        return Refusal::TableWrong.at(room(rows.len())).into();
    }
    look(rows, words, code)
}

// The hops, from row 0 on. What is asked for can be asked, and there are words enough.
fn look(rows: &[u32], words: &[u32], code: u32) -> Reply
    requires { (can_ask code ≡ true) × (envelopes_most ≤ length words.now) }
    ensures { reply_of result ≡ looked_reply (looked_up rows.now words.now code) }
{
    let n = room(rows.len());
    let mut looked: usize = 0;
    let mut envelopes: usize = 0;
    let mut i: usize = 0;
    while i < n {
        let kind = kind_at(rows, i);
        let skip = skip_at(rows, i);
        if skip <= i || n < skip {
            return Refusal::TableWrong.at(i).into();
        }
        looked += 1;
        if code_of(kind) == code {
            return found(i, looked);
        }
        if is_envelope(kind) {
            i = entry(words, code, envelopes, kind, i, skip);
            envelopes += 1;
        } else {
            i = skip;
        }
    }
    found(i, looked)
}

// The answer: a row, or the row count where hops find none, and how many rows were looked at.
fn found(row: usize, looked: usize) -> Reply
    ensures { reply_of result ≡ looked_reply (answers_at row looked) }
{
    Reply {
        answer: 0,
        place: row,
        rows: looked,
    }
}

// Takes a row's kind. Answers whether it is an envelope's own.
fn is_envelope(kind: u32) -> bool
    ensures { result ≡ is_envelope kind }
{
    matches!(
        Kind::try_from(kind),
        Ok(Kind::ExtensionOpens | Kind::BaseOpens)
    )
}

// Takes the number of an envelope from 0, its row's kind and number, and its skip number. Answers where to look on: at the row behind its own, or
// where it is left out at its skip number.
fn entry(words: &[u32], code: u32, envelope: usize, kind: u32, i: usize, skip: usize) -> usize
    requires { (can_ask code ≡ true) × (envelopes_most ≤ length words.now) × (i < skip) }
    ensures { result ≡ pick (not (left_out words.now code envelope kind)) (suc i) skip }
{
    if is_left_out(words, code, envelope, kind) {
        return skip;
    }
    i + 1
}

// Takes the same envelope. Answers whether it is left out: "whose presence word lacks the code (for code 20, which has no bit, all but the base)".
// "An envelope past the sixteenth has no word and lacks no code."
fn is_left_out(words: &[u32], code: u32, envelope: usize, kind: u32) -> bool
    requires { (can_ask code ≡ true) × (envelopes_most ≤ length words.now) }
    ensures { result ≡ left_out words.now code envelope kind }
{
    if code == OWN_DATE {
        return kind == Kind::ExtensionOpens.number();
    }
    if envelope < ENVELOPES_MOST as usize {
        return lacks_bit(words[envelope], code);
    }
    false
}

// Takes a word and a code that can have a bit. Answers whether that bit is not set.
fn lacks_bit(word: u32, code: u32) -> bool
    requires { code < 32 }
    ensures { result ≡ lacks word code }
{
    (word >> code) % 2 == 0
}
