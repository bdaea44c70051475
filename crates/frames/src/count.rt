// How many envelopes a header has.
ghost use Rattle.frames.specs.Counts.{EnvelopesCounted};

use crate::frame::{Frame, frame_at};
use table::limits::ENVELOPES_MOST;

// Takes s, with an accepted header at its front. Answers how many envelopes that has, from identifier to identifier: nothing inside them is looked at.
// Where no header is accepted the number says nothing.
pub fn count_envelopes(s: &[u8]) -> u32
    ensures { EnvelopesCounted s.now result }
{
    let mut at: usize = 0;
    let mut left: u32 = ENVELOPES_MOST;
    loop {
        let Frame::Opens {
            base,
            first: _,
            end,
        } = frame_at(s, at, left)
        else {
            return 0;
        };
        if base {
            return ENVELOPES_MOST - left + 1;
        }
        at = end;
        left -= 1;
    }
}
