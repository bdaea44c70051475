// "Extension: FD, length, received object, parameters, 01. Base: FE, length, representation, date, parameters, 01": what stands behind the length.
// Each function answers the place behind what it read with the rows then, or the first refusal.
ghost use Rattle.std.specs.Prelude.{true, false};
ghost use Rattle.meaning.specs.Editions.{state, parameters, closed};
ghost use Rattle.meaning.specs.Headers.{start};
ghost use Rattle.table.specs.Told.{told_of};
ghost use Rattle.read_rows.specs.Stages.{ReadyAt, StateReadAt};

use crate::parameters::read_parameters;
use read_objects::received::read_received;
use read_rows::rows;
use table::answers::{Reached, Stage};
use table::told::Told;

// The inside of a base or of an extension that ends where `s` does, from behind its length up to its 01.
pub fn read_inside(s: &[u8], from: Reached, rows: &mut [u32], base: bool, told: Told) -> Stage
    requires { ReadyAt s.now from }
    ensures { StateReadAt (told_of told) s.now (start base) from rows.old result (state closed 0 false) rows.new }
{
    let front = read_front(s, from, rows, base, told);
    let Stage::Go(behind_front) = front else {
        return front;
    };
    read_parameters(s, behind_front, rows, told)
}

// What stands before an envelope's parameters: a base's head, an extension's received object.
fn read_front(s: &[u8], from: Reached, rows: &mut [u32], base: bool, told: Told) -> Stage
    requires { ReadyAt s.now from }
    ensures { StateReadAt (told_of told) s.now (start base) from rows.old result (state parameters 0 false) rows.new }
{
    if base {
        return read_head(s, from, rows, told);
    }
    read_received(s, from, rows, told)
}

// "Base: .. representation, date".
fn read_head(s: &[u8], from: Reached, rows: &mut [u32], told: Told) -> Stage
    requires { ReadyAt s.now from }
    ensures { StateReadAt (told_of told) s.now (start true) from rows.old result (state parameters 0 false) rows.new }
{
    let representation = rows::representation(s, from, rows);
    let Stage::Go(behind_representation) = representation else {
        return representation;
    };
    rows::date(s, behind_representation, rows, 0, told)
}
