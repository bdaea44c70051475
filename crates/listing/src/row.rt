// "per row kind, level, start, length", skip, "viewed bytes in lower-case hex, or `-` if none": a row's numbers are one piece, its view one or more.
ghost use Rattle.std.specs.Prelude.{◌≡◌, [], ◌∷◌, ◌++◌, ◌+◌, ◌-◌, ◌*◌, ◌≤◌, ◌<◌, length};
ghost use Rattle.meaning.specs.Memory.{row_width, room_of};
ghost use Rattle.meaning.specs.Listing.{hex_of};
ghost use Rattle.listing.specs.Text.{row_of, view_of};
ghost use Rattle.listing.specs.Pieces.{piece_least};
ghost use Rattle.pen.specs.Wrote.{Wrote};
ghost use Rattle.pen.specs.Fields.{fields_of};
ghost use Rattle.listing.specs.Stages.{WroteEnd, WroteField, RowPiece, ViewPiece, ViewRoom};

use crate::{Cursor, Piece};
use pen::{NEWLINE, TAB, field, hex, put};
use table::rows::ROW_NUMBERS;

// "or `-` if none"
const NONE: u8 = 0x2d;

// The next piece of a row's line; lines are counted from 1.
pub fn row_piece(rows: &[u32], bytes: &[u8], cursor: Cursor, out: &mut [u8]) -> Piece
    requires { (1 ≤ cursor.line) × (cursor.line ≤ room_of rows.now) × (piece_least ≤ length out.old) }
    ensures { RowPiece (row_of rows.now (cursor.line - 1)) bytes.now cursor.line cursor.byte out.old out.new result }
{
    let first = (cursor.line - 1) * ROW_NUMBERS;
    let row = &rows[first..first + ROW_NUMBERS];
    if cursor.byte == 0 {
        let end = numbers(row, out);
        return Piece {
            length: end,
            line: cursor.line,
            byte: 1,
        };
    }
    view_line(row, bytes, cursor.byte - 1, cursor.line, out)
}

// Writes a row's numbers, each with its tab.
fn numbers(row: &[u32], out: &mut [u8]) -> usize
    requires { 11 * length row.now ≤ length out.old }
    ensures { Wrote out.old out.new 0 (fields_of row.now) result }
{
    let mut end: usize = 0;
    for number in row {
        end = row_field(out, end, *number);
    }
    end
}

// Writes one number of a row and its tab: eleven bytes at most.
fn row_field(out: &mut [u8], at: usize, number: u32) -> usize
    requires { at + 11 ≤ length out.old }
    ensures { WroteField out.old out.new at number result }
{
    field(out, at, number as u64, TAB)
}

// The bytes that a row views, as far as there are any.
fn view_line(row: &[u32], bytes: &[u8], gone: usize, line: usize, out: &mut [u8]) -> Piece
    requires { (length row.now ≡ row_width) × ViewRoom line out.old }
    ensures { ViewPiece (view_of row.now bytes.now) gone line out.old out.new result }
{
    let there = bytes.len();
    let start = there.min(row[2] as usize);
    let end = start + (there - start).min(row[3] as usize);
    view_piece(&bytes[start..end], gone, line, out)
}

// A view from a byte of it on: the rest with its line's end, or as much as `out` holds.
fn view_piece(view: &[u8], gone: usize, line: usize, out: &mut [u8]) -> Piece
    requires { ViewRoom line out.old }
    ensures { ViewPiece view.now gone line out.old out.new result }
{
    let there = view.len();
    if there <= gone {
        let end = no_bytes(gone, out);
        return line_end(end, line);
    }
    let room = (out.len() - 1) / 2;
    if there - gone <= room {
        let end = last_bytes(&view[gone..there], out);
        return line_end(end, line);
    }
    let shown = gone + room;
    let end = hex(out, 0, &view[gone..shown]);
    Piece {
        length: end,
        line: line,
        byte: shown + 1,
    }
}

// A piece with which its line ends.
fn line_end(length: usize, line: usize) -> Piece
    requires { line + 1 < 18446744073709551616 }
    ensures { result ≡ record { length = length; line = line + 1; byte = 0 } }
{
    Piece {
        length: length,
        line: line + 1,
        byte: 0,
    }
}

// The line's end behind all bytes of a view, or behind `-` if it has none.
fn no_bytes(gone: usize, out: &mut [u8]) -> usize
    requires { piece_least ≤ length out.old }
    ensures { WroteEnd out.old out.new gone result }
{
    if gone == 0 {
        let end = put(out, 0, NONE);
        return put(out, end, NEWLINE);
    }
    put(out, 0, NEWLINE)
}

// The last bytes of a view, and the line's end.
fn last_bytes(rest: &[u8], out: &mut [u8]) -> usize
    requires { 2 * length rest.now < length out.old }
    ensures { Wrote out.old out.new 0 (hex_of rest.now ++ (0x0a ∷ [])) result }
{
    let end = hex(out, 0, rest);
    put(out, end, NEWLINE)
}
