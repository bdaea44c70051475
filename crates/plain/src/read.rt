// The plain reader: a header as rows and words in lent memory, by the engine. Its promises are the first reader's, and so is all but the insides.
ghost use Rattle.reader.specs.Promises.{ReadPromise, TolerantPromise};

pub use crate::header::ByMoves;
use reader::read_by;
use table::reply::Reply;
use table::told::Strictness;

// Takes an edition's number and the input. Fills `rows` with the rows of the header at the input's front and `words` with a word for each of its
// envelopes, and answers 0, the place behind the header and the count of rows. A refusal is answered by number and place, and changes no row
// and no word.
pub fn read_plain(edition: u32, input: &[u8], rows: &mut [u32], words: &mut [u32]) -> Reply
    ensures { ReadPromise edition input.now rows.old words.old result rows.new words.new }
{
    read_by::<ByMoves>(edition, Strictness::Strict, input, rows, words)
}

// The same, tolerantly: a block's length may stand in a wider form than it needs, and 11 is never the answer.
pub fn read_plain_tolerant(edition: u32, input: &[u8], rows: &mut [u32], words: &mut [u32]) -> Reply
    ensures { TolerantPromise edition input.now rows.old words.old result rows.new words.new }
{
    read_by::<ByMoves>(edition, Strictness::Tolerant, input, rows, words)
}
