// A caller of each entry, who hands on whatever it is given, asks nothing of its own caller, and promises what the entry promises.
// Nothing calls them and nothing of them is in the archive: an entry that asks for something, or promises less, leaves its caller unproved.
ghost use Rattle.meaning.specs.Words.{ones_of};
ghost use Rattle.reader.specs.Promises.{ReadPromise, TolerantPromise, PartPromise};
ghost use Rattle.writer.specs.Promise.{WritePromise};
ghost use Rattle.present.specs.Promise.{PresentPromise};
ghost use Rattle.lookup.specs.Promise.{LookupPromise};
ghost use Rattle.which.specs.Promise.{WhichPromise};
ghost use Rattle.relay.specs.Promise.{RelayPromise};
ghost use Rattle.coders.specs.Plain.{NumberDecodes, NumberEncodes, DateDecodes, DateEncodes, plain_of};
ghost use Rattle.figures.specs.Promises.{AddPromise, JoinPromise, ReportPromise};
ghost use Rattle.gamulisyan.specs.Version.{version};
ghost use Rattle.std.specs.Prelude.{◌≡◌};

use coders::Date;
use coders::decode::{DecodedDate, DecodedNumber};
use coders::encode::Encoded;
use figures::Figured;
use reader::Part;
use table::reply::Reply;
use which::Sorted;

fn read(edition: u32, input: &[u8], rows: &mut [u32], words: &mut [u32]) -> Reply
    ensures { ReadPromise edition input.now rows.old words.old result rows.new words.new }
{
    crate::gamulisyan_read(edition, input, rows, words)
}

fn read_tolerant(edition: u32, input: &[u8], rows: &mut [u32], words: &mut [u32]) -> Reply
    ensures { TolerantPromise edition input.now rows.old words.old result rows.new words.new }
{
    crate::gamulisyan_read_tolerant(edition, input, rows, words)
}

fn read_plain(edition: u32, input: &[u8], rows: &mut [u32], words: &mut [u32]) -> Reply
    ensures { ReadPromise edition input.now rows.old words.old result rows.new words.new }
{
    crate::gamulisyan_read_plain(edition, input, rows, words)
}

fn read_plain_tolerant(edition: u32, input: &[u8], rows: &mut [u32], words: &mut [u32]) -> Reply
    ensures { TolerantPromise edition input.now rows.old words.old result rows.new words.new }
{
    crate::gamulisyan_read_plain_tolerant(edition, input, rows, words)
}

fn which(input: &[u8], rows: &mut [u32], words: &mut [u32]) -> Sorted
    ensures { WhichPromise input.now rows.old words.old result rows.new words.new }
{
    crate::gamulisyan_which(input, rows, words)
}

fn write(edition: u32, rows: &[u32], pool: &[u8], output: &mut [u8]) -> Reply
    ensures { WritePromise edition rows.now pool.now output.old result output.new }
{
    crate::gamulisyan_write(edition, rows, pool, output)
}

fn ones(word: u32) -> u32
    ensures { result ≡ ones_of word }
{
    crate::gamulisyan_ones(word)
}

fn payload(edition: u32, input: &[u8]) -> Part
    ensures { PartPromise edition input.now result }
{
    crate::gamulisyan_payload(edition, input)
}

fn present(edition: u32, rows: &[u32], pool: &[u8], code: u32) -> Reply
    ensures { PresentPromise edition rows.now pool.now code result }
{
    crate::gamulisyan_present(edition, rows, pool, code)
}

fn lookup(rows: &[u32], words: &[u32], code: u32) -> Reply
    ensures { LookupPromise rows.now words.now code result }
{
    crate::gamulisyan_lookup(rows, words, code)
}

fn relay(
    edition: u32,
    input: &[u8],
    table: &[u32],
    pool: &[u8],
    rows: &mut [u32],
    words: &mut [u32],
    output: &mut [u8],
) -> Reply
    ensures { RelayPromise edition input.now table.now pool.now rows.old words.old output.old result rows.new words.new output.new }
{
    crate::gamulisyan_relay(edition, input, table, pool, rows, words, output)
}

fn number_decode(bytes: &[u8]) -> DecodedNumber
    ensures { NumberDecodes bytes.now result }
{
    crate::gamulisyan_number_decode(bytes)
}

fn number_encode(value: u64, output: &mut [u8]) -> Encoded
    ensures { NumberEncodes value output.old output.new result }
{
    crate::gamulisyan_number_encode(value, output)
}

fn date_decode(kind: u32, bytes: &[u8]) -> DecodedDate
    ensures { DateDecodes kind bytes.now result }
{
    crate::gamulisyan_date_decode(kind, bytes)
}

fn date_encode(kind: u32, date: Date, output: &mut [u8]) -> Encoded
    ensures { DateEncodes kind (plain_of date) output.old output.new result }
{
    crate::gamulisyan_date_encode(kind, date, output)
}

fn version() -> u32
    ensures { result ≡ version }
{
    crate::gamulisyan_version()
}

fn figures_add(edition: u32, input: &[u8], figures: &mut [u64]) -> Figured
    ensures { AddPromise edition input.now figures.old figures.new result }
{
    crate::gamulisyan_figures_add(edition, input, figures)
}

fn figures_join(others: &[u64], figures: &mut [u64]) -> Figured
    ensures { JoinPromise others.now figures.old figures.new result }
{
    crate::gamulisyan_figures_join(others, figures)
}

fn figures_report(figures: &[u64], output: &mut [u8]) -> Figured
    ensures { ReportPromise figures.now output.old output.new result }
{
    crate::gamulisyan_figures_report(figures, output)
}
