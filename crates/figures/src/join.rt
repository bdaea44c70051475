// The figures of two months, or of two gateways, put together: our own.
ghost use Rattle.std.specs.Prelude.{◌≡◌, length};
ghost use Rattle.meaning.specs.Figures.{sums, joinable};
ghost use Rattle.figures.specs.Stages.{Bounded};
ghost use Rattle.figures.specs.Promises.{JoinPromise};

use crate::Figured;
use crate::judge::{FIGURES, MESSAGES_MOST, messages};
use table::refusals::Refusal;

// Takes figures and others, which stay as they are. Adds the others to the figures and answers 0 at 0. Refuses, with nothing changed, numbers that are no figures, and
// figures that together are of more than 1,000,000 messages: 19 at 0.
pub fn join(others: &[u64], figures: &mut [u64]) -> Figured
    ensures { JoinPromise others.now figures.old figures.new result }
{
    if !are_joinable(figures, others) {
        return Refusal::FiguresFull.at(0).into();
    }
    sum_all(others, figures);
    Figured {
        answer: 0,
        place: 0,
    }
}

// Whether both are figures, together of no more messages than there may be.
fn are_joinable(figures: &[u64], others: &[u64]) -> bool
    ensures { result ≡ joinable figures.now others.now }
{
    let Some(ours) = messages(figures) else {
        return false;
    };
    let Some(theirs) = messages(others) else {
        return false;
    };
    ours + theirs <= MESSAGES_MOST
}

// Adds each number to the one at its place.
fn sum_all(others: &[u64], figures: &mut [u64])
    requires { Bounded others.now × Bounded figures.old }
    ensures { figures.new ≡ sums figures.old others.now }
{
    for i in 0..FIGURES {
        figures[i] += others[i];
    }
}
