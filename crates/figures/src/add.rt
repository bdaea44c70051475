// "Each message is added by its bytes and edition."
ghost use Rattle.std.specs.Prelude.{◌≡◌, ◌≤◌};
ghost use Rattle.meaning.specs.Told as meaning;
ghost use Rattle.meaning.specs.Figures.{apart, taken, turned, sums, adds_of, entry_of, takes_more, edition_width};
ghost use Rattle.table.specs.Told.{edition_of};
ghost use Rattle.table.specs.Refusals.{answer_of};
ghost use Rattle.figures.specs.Stages.{first_of, number_bound, Bounded};
ghost use Rattle.figures.specs.Promises.{AddPromise, message};

use crate::Figured;
use crate::judge::{BYTES_AT, EDITION_NUMBERS, ENVELOPES_AT, MESSAGES_MOST, UNKNOWN_AT, messages};
use frames::count::count_envelopes;
use reader::count_in;
use table::answers::Stage;
use table::refusals::Refusal;
use table::told::Edition;

// Takes figures, and a message's edition and bytes. Adds it to them and answers 0 at 0, whatever its reading was. Refuses, with nothing changed, once 1,000,000
// messages were added, and numbers that are no figures: 19 at 0.
pub fn add(edition: u32, input: &[u8], figures: &mut [u64]) -> Figured
    ensures { AddPromise edition input.now figures.old figures.new result }
{
    if !takes_more(figures) {
        return Refusal::FiguresFull.at(0).into();
    }
    enter(edition, input, figures);
    Figured {
        answer: 0,
        place: 0,
    }
}

// Whether lent numbers are figures of fewer messages than there may be.
fn takes_more(figures: &[u64]) -> bool
    ensures { result ≡ takes_more figures.now }
{
    let Some(many) = messages(figures) else {
        return false;
    };
    many < MESSAGES_MOST
}

// Takes figures that have room for a message, and enters it: where its edition is unknown, apart.
fn enter(edition: u32, input: &[u8], figures: &mut [u64])
    requires { Bounded figures.old }
    ensures { figures.new ≡ sums figures.old (adds_of (entry_of (message edition input.now))) }
{
    let Ok(told) = Edition::try_from(edition) else {
        enter_apart(figures);
        return;
    };
    let first = first_of(told);
    match count_in(told, input) {
        Stage::Refused(fault) => enter_turned(figures, first, fault.refusal),
        Stage::Go(reached) => {
            let envelopes = count_envelopes(input);
            enter_taken(figures, first, u64::from(envelopes), reached.at as u64);
        }
    }
}

// "A message of an unknown edition is counted apart": one more.
fn enter_apart(figures: &mut [u64])
    requires { Bounded figures.old }
    ensures { figures.new ≡ sums figures.old (adds_of apart) }
{
    figures[UNKNOWN_AT] += 1;
}

// One more refused so, of the edition whose numbers begin at `first`.
fn enter_turned(figures: &mut [u64], first: usize, refusal: Refusal)
    requires { Bounded figures.old × (first ≤ edition_width) × (2 ≤ answer_of refusal) × (answer_of refusal ≤ 13) }
    ensures { (e : meaning.Edition) → first ≡ first_of e → figures.new ≡ sums figures.old (adds_of (turned e (answer_of refusal))) }
{
    let at = first + refusal.answer() as usize - 1;
    figures[at] += 1;
}

// One more accepted, with so many envelopes and header bytes, of the edition whose numbers begin at `first`.
fn enter_taken(figures: &mut [u64], first: usize, envelopes: u64, bytes: u64)
    requires { Bounded figures.old × (first ≤ edition_width) × (envelopes ≤ number_bound) × (bytes ≤ number_bound) }
    ensures { (e : meaning.Edition) → first ≡ first_of e → figures.new ≡ sums figures.old (adds_of (taken e envelopes bytes)) }
{
    figures[first + BYTES_AT] += bytes;
    figures[first + ENVELOPES_AT] += envelopes;
    figures[first] += 1;
}

// Where an edition's numbers begin.
fn first_of(edition: Edition) -> usize
    ensures { (result ≡ first_of (edition_of edition)) × (result ≤ edition_width) }
{
    match edition {
        Edition::B => 0,
        Edition::D => EDITION_NUMBERS,
    }
}
