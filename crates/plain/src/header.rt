// A header's envelopes by the engine: what the generic reader is given for an envelope's inside.
use crate::run::run_inside;
use read_envelopes::insides::ReadsInside;
use table::answers::{Reached, Stage};
use table::told::Told;

// By moves, one step a byte: the plain engine.
pub struct ByMoves;

impl ReadsInside for ByMoves {
    fn inside(s: &[u8], from: Reached, rows: &mut [u32], base: bool, told: Told) -> Stage {
        run_inside(s, from, rows, base, told)
    }
}
