// The engine over the bytes of an envelope's inside.
ghost use Rattle.std.specs.Prelude.{length, ◌≤◌, ◌<◌, false};
ghost use Rattle.meaning.specs.Editions.{state, closed};
ghost use Rattle.meaning.specs.Headers.{start};
ghost use Rattle.values.specs.Stages.{Within};
ghost use Rattle.table.specs.Told.{told_of};
ghost use Rattle.read_rows.specs.Stages.{ReadyAt, StateReadAt};
ghost use Rattle.plain.specs.Steps.{Holds, PastText, Ended};

use crate::engine::Engine;
use crate::feed::{Fed, Taking};
use table::answers::{Reached, Stage};
use table::refusals::Refusal;
use table::rows::put_row;
use table::told::Told;
use values::text::last_run;

// Takes the inside of an envelope, from behind its length up to its 01; the envelope ends where `s` does. Answers the place behind it and the rows then, or
// the first refusal.
pub fn run_inside(s: &[u8], from: Reached, rows: &mut [u32], base: bool, told: Told) -> Stage
    requires { ReadyAt s.now from }
    ensures { StateReadAt (told_of told) s.now (start base) from rows.old result (state closed 0 false) rows.new }
{
    let mut reached = from;
    let mut engine = Engine::begin(base);
    loop {
        let here = Reached {
            at: engine.past_text(s, reached.at),
            rows: reached.rows,
        };
        if s.len() <= here.at {
            return engine.ended(here);
        }
        match engine.step(told, s, here.at) {
            Fed::Wrong(fault) => return Stage::Refused(fault),
            Fed::Over => return Stage::Go(here),
            Fed::Goes(taking) => {
                engine = engine.taken_on(taking);
                reached = here.passed();
            }
            Fed::Moves(next) => {
                engine = engine.behind(next);
                reached = here.passed();
            }
            Fed::Ends { of, length } => {
                let level = engine.standing.lists.level();
                put_row(rows, here.rows, of.kind.number(), level, of.start, length);
                engine = engine.behind(of.next);
                reached = Reached {
                    at: here.at + 1,
                    rows: here.rows + 1,
                };
            }
        }
    }
}

impl Engine {
    // A text's bytes pass by one comparison each, and so do a block's before its last: the place of the first byte below 0x20 or of the block's last byte,
    // or the end. Where neither is taken, the same place.
    fn past_text(self, s: &[u8], at: usize) -> usize
        requires { (Within s.now at) × (Holds self at) }
        ensures { PastText self s.now (length s.now) at result }
    {
        let Some(taking) = self.taking else {
            return at;
        };
        match taking {
            Taking::Text { .. } => last_run(s, at),
            Taking::Block { until, .. } => (until - 1).min(s.len()),
            _ => at,
        }
    }

    // Takes the declared end. Behind the envelope's 01 that is well; elsewhere "6: a byte is needed at the declared end".
    fn ended(self, here: Reached) -> Stage
        ensures { Ended self here.at here.rows result }
    {
        match self.taking {
            None if self.standing.room.is_closed() => Stage::Go(here),
            _ => Stage::Refused(Refusal::EnvelopeEnds.at(here.at)),
        }
    }
}
