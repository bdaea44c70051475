// What reads an envelope's inside, whichever way: the first reader's stages, or the plain engine's moves.
ghost use Rattle.std.specs.Prelude.{false};
ghost use Rattle.meaning.specs.Editions.{state, closed};
ghost use Rattle.meaning.specs.Headers.{start};
ghost use Rattle.table.specs.Told.{told_of};
ghost use Rattle.read_rows.specs.Stages.{ReadyAt, StateReadAt};

use read_inside::inside::read_inside;
use table::answers::{Reached, Stage};
use table::told::Told;

pub trait ReadsInside {
    // Takes an envelope, a base or an extension, that ends where `s` does, from behind its length on: its inside, up to its 01. Answers the place behind it and
    // the rows then, or the first refusal.
    fn inside(s: &[u8], from: Reached, rows: &mut [u32], base: bool, told: Told) -> Stage
        requires { ReadyAt s.now from }
        ensures { StateReadAt (told_of told) s.now (start base) from rows.old result (state closed 0 false) rows.new };
}

// By stages that call one another: the first reader.
pub struct ByStages;

impl ReadsInside for ByStages {
    fn inside(s: &[u8], from: Reached, rows: &mut [u32], base: bool, told: Told) -> Stage {
        read_inside(s, from, rows, base, told)
    }
}
