// Order 9: a reading that is told no edition.
#![tactic(auto)]

ghost use Rattle.std.specs.Prelude.{◌≡◌};
ghost use Rattle.meaning.specs.Which.{sorted};
ghost use Rattle.table.specs.Reply.{reply_of};
ghost use Rattle.table.specs.declared.told.Strictness.TheVariants.{Strict};
ghost use Rattle.which.specs.Promise.{WhichPromise, sorted_of};
ghost use Rattle.which.specs.Allowing.{editions_in};

use reader::{count_in, fill};
use table::answers::Stage;
use table::reply::Reply;
use table::told::{Edition, Strictness, Told};

// The editions that allow the bytes.
#[derive(Clone, Copy)]
enum Allowed {
    B = 1,
    D = 2,
    Both = 3,
}

// "answers the rows and the editions that allow the bytes: 1, 2, or 3 for both"; refused, 0.
#[repr(C)]
#[derive(Drop)]
pub struct Sorted {
    pub answer: u32,
    pub place: usize,
    pub rows: usize,
    pub editions: u32,
}

// Takes the input. Where an edition allows the header at its front, fills `rows` and `words` as the reader does, and answers 0, the place behind the
// header, the count of rows, and which editions allow it. Refuses what neither allows as edition 2 does, then too little room (14); a refusal
// changes no row and no word.
pub fn which(input: &[u8], rows: &mut [u32], words: &mut [u32]) -> Sorted
    ensures { WhichPromise input.now rows.old words.old result rows.new words.new }
{
    let by_b = count_in(Edition::B, input);
    let by_d = count_in(Edition::D, input);
    match (by_b, by_d) {
        (Stage::Go(_), Stage::Go(to)) => {
            let read = fill(strictly(Edition::D), input, rows, words, to);
            sort(read, Allowed::Both)
        }
        (Stage::Refused(_), Stage::Go(to)) => {
            let read = fill(strictly(Edition::D), input, rows, words, to);
            sort(read, Allowed::D)
        }
        (Stage::Go(to), Stage::Refused(_)) => {
            let read = fill(strictly(Edition::B), input, rows, words, to);
            sort(read, Allowed::B)
        }
        (Stage::Refused(_), Stage::Refused(fault)) => Sorted {
            answer: fault.refusal.answer(),
            place: fault.at,
            rows: 0,
            editions: 0,
        },
    }
}

// What a strict reading is told.
fn strictly(edition: Edition) -> Told
    ensures { result ≡ record { edition = edition; strictness = Strict } }
{
    Told {
        edition,
        strictness: Strictness::Strict,
    }
}

// Takes a reading's answer and the editions that allow the header. Answers both, "Refusals, each with editions 0".
fn sort(read: Reply, allowed: Allowed) -> Sorted
    ensures { sorted_of result ≡ sorted (editions_in allowed) (reply_of read) }
{
    Sorted {
        answer: read.answer,
        place: read.place,
        rows: read.rows,
        editions: if read.answer == 0 { allowed as u32 } else { 0 },
    }
}
