// The body of document 01's listing programs: "reads at most 65,536 bytes from standard input (longer: the one line `too long`), lends 3,072 rows".
// Of what a program reads and writes these contracts do not speak. Promised are the text of `read_table`, which is the listing, its pieces, which leave
// no gap (`listing::next`), how much `print` lends, which inputs are too long, and the line of `too_long`. Of `list` it is proved that it is safe
// and ends; what is handed to the writer is run and compared. A reader's or a writer's error is handed up as it is, and no other is made.
#![tactic(auto)]

ghost use Rattle.std.specs.Prelude.{◌≡◌, ◌≤◌, ltb, length, IfOk};
ghost use Rattle.meaning.specs.Listing.{input_most};
ghost use Rattle.lister.specs.Promise.{TablePromise, PrintPromise, LongPromise, Turned};

use listing::{Cursor, Piece};
use std::io;
use std::io::{ErrorKind, Read, Write};
use table::limits::WORDS_BORROWED;
use table::reply::Reply;
use table::rows::ROW_NUMBERS;

const INPUT_MOST: usize = 65536;

const ROWS_LENT: usize = 3072;

// Memory for a piece of the listing.
const PIECE_LENT: usize = 4096;

// The listing of what `from` gives, in this edition, to `to`. The one byte more tells an input that is too long.
pub fn list<R: Read, W: Write>(edition: u32, from: &mut R, to: &mut W) -> io::Result<()> {
    let mut input = [0u8; INPUT_MOST + 1];
    let n = read_full(from, &mut input)?;
    if is_long(n) {
        let line = too_long();
        return to.write_all(&line);
    }
    print(edition, &input[..n], to)?;
    Ok(())
}

// Reads until the buffer is full or the input ends, again where a signal interrupts it. Answers how many bytes were read, or the reader's error;
// after 2^64 reads an error too, as std does.
fn read_full<R: Read>(from: &mut R, buffer: &mut [u8]) -> io::Result<usize>
    ensures { IfOk result (λ n. n ≤ length buffer.new) }
{
    let mut n: usize = 0;
    for _ in 0..u64::MAX {
        match from.read(&mut buffer[n..]) {
            Ok(0) => return Ok(n),
            Ok(more) => n += more,
            Err(e) => {
                if e.kind() != ErrorKind::Interrupted {
                    return Err(e);
                }
            }
        }
    }
    Err(ErrorKind::Other.into())
}

// Takes how many bytes were read. Answers whether they are too long.
fn is_long(n: usize) -> bool
    ensures { result ≡ ltb input_most n }
{
    INPUT_MOST < n
}

// "(longer: the one line `too long`)"
pub fn too_long() -> [u8; 9]
    ensures { LongPromise result }
{
    *b"too long\n"
}

// Lists this input. "lends 3,072 rows"; and the words that the reader borrows. Answers what the reader answered, or the writer's error, which
// leaves nothing of the caller's changed but the writer.
pub fn print<W: Write>(edition: u32, input: &[u8], to: &mut W) -> io::Result<Reply>
    ensures { IfOk result (λ answer. PrintPromise edition input.now answer) }
{
    let mut rows = [0u32; ROWS_LENT * ROW_NUMBERS];
    let mut words = [0u32; WORDS_BORROWED];
    let table = read_table(edition, input, &mut rows, &mut words);
    print_lines(&table, &rows, input, to)?;
    Ok(table)
}

// The reader's answer and rows, whose text is the listing.
pub fn read_table(edition: u32, input: &[u8], rows: &mut [u32], words: &mut [u32]) -> Reply
    ensures { TablePromise edition input.now rows.old words.old result rows.new words.new }
{
    reader::read(edition, input, rows, words)
}

// Piece by piece until one is empty, which is the text's end.
fn print_lines<W: Write>(table: &Reply, rows: &[u32], input: &[u8], to: &mut W) -> io::Result<()> {
    let start = Cursor { line: 0, byte: 0 };
    let mut piece = print_piece(table, rows, input, start, to)?;
    while 0 < piece.length {
        piece = print_piece(table, rows, input, piece.cursor(), to)?;
    }
    Ok(())
}

// The next piece, and the cursor behind it.
fn print_piece<W: Write>(
    table: &Reply,
    rows: &[u32],
    input: &[u8],
    cursor: Cursor,
    to: &mut W,
) -> io::Result<Piece>
    ensures { IfOk result (λ next. Turned table.now.answer table.now.place table.now.rows rows.now input.now cursor.line cursor.byte next) }
{
    let mut out = [0u8; PIECE_LENT];
    let piece = listing::next(table, rows, input, cursor, &mut out);
    let length = piece.length;
    to.write_all(&out[..length])?;
    Ok(piece)
}
