// Document 01, the listing program's text, piece by piece into lent memory: answer, place and rows, then a line for each row.
#![tactic(auto)]

mod row;

ghost use Rattle.std.specs.Prelude.{◌≡◌, ◌≤◌, length};
ghost use Rattle.table.specs.Reply.{reply_of};
ghost use Rattle.meaning.specs.Listing.{first_line};
ghost use Rattle.listing.specs.Text.{lines_of};
ghost use Rattle.listing.specs.Pieces.{NextPiece, piece_least};
ghost use Rattle.pen.specs.Wrote.{Wrote};

use crate::row::row_piece;
use pen::{NEWLINE, TAB, field};
use table::reply::Reply;
use table::rows::room;

// Memory that holds a first line, or a row's numbers.
const PIECE_LEAST: usize = 64;

// A place in the text. Line 0 is the first line, line i + 1 that of row i; byte 0 is a line's beginning, byte 1 + k stands behind its numbers and k
// bytes of its view.
#[derive(Clone, Copy)]
pub struct Cursor {
    pub line: usize,
    pub byte: usize,
}

// How many bytes were written, and the line and the byte of the cursor behind them: plain numbers, as the theorems name them.
#[derive(Drop)]
pub struct Piece {
    pub length: usize,
    pub line: usize,
    pub byte: usize,
}

impl Piece {
    // The cursor behind the piece.
    pub fn cursor(&self) -> Cursor
        ensures { result ≡ record { line = self.now.line; byte = self.now.byte } }
    {
        Cursor {
            line: self.line,
            byte: self.byte,
        }
    }
}

// The next piece of the text of what a reader answered, over the front of `out`; nothing behind it changes. Any numbers and any cursor have an answer.
// No bytes mean that the text is at its end, or that `out` has fewer than 64.
pub fn next(reply: &Reply, rows: &[u32], bytes: &[u8], cursor: Cursor, out: &mut [u8]) -> Piece
    ensures { NextPiece reply.now.answer reply.now.place reply.now.rows rows.now bytes.now cursor.line cursor.byte out.old out.new result }
{
    if out.len() < PIECE_LEAST {
        return nothing(cursor);
    }
    if cursor.line == 0 {
        let end = first_line(reply, out);
        return Piece {
            length: end,
            line: 1,
            byte: 0,
        };
    }
    if lines(reply, rows) < cursor.line {
        return nothing(cursor);
    }
    row_piece(rows, bytes, cursor, out)
}

// No piece: the cursor stays.
fn nothing(cursor: Cursor) -> Piece
    ensures { result ≡ record { length = 0; line = cursor.line; byte = cursor.byte } }
{
    Piece {
        length: 0,
        line: cursor.line,
        byte: cursor.byte,
    }
}

// "prints answer, place, rows"
fn first_line(reply: &Reply, out: &mut [u8]) -> usize
    requires { piece_least ≤ length out.old }
    ensures { Wrote out.old out.new 0 (first_line (reply_of reply.now)) result }
{
    let answered = field(out, 0, u64::from(reply.answer), TAB);
    let placed = field(out, answered, reply.place as u64, TAB);
    field(out, placed, reply.rows as u64, NEWLINE)
}

// "then, if accepted, per row": the rows that have a line.
fn lines(reply: &Reply, rows: &[u32]) -> usize
    ensures { result ≡ lines_of reply.now.answer reply.now.rows rows.now }
{
    if reply.answer != 0 {
        return 0;
    }
    reply.rows.min(room(rows.len()))
}
