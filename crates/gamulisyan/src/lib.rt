// The entries under the names that C and Rust programs link, each with its whole promise; nothing else. `include/gamulisyan.h` declares them
// and says what each takes, answers, refuses and leaves.
#![tactic(auto)]

mod callers;

ghost use Rattle.meaning.specs.Words.{ones_of};
ghost use Rattle.reader.specs.Promises.{ReadPromise, TolerantPromise, PartPromise};
ghost use Rattle.writer.specs.Promise.{WritePromise};
ghost use Rattle.present.specs.Promise.{PresentPromise};
ghost use Rattle.lookup.specs.Promise.{LookupPromise};
ghost use Rattle.which.specs.Promise.{WhichPromise};
ghost use Rattle.relay.specs.Promise.{RelayPromise};
ghost use Rattle.coders.specs.Plain.{NumberDecodes, NumberEncodes, DateDecodes, DateEncodes, plain_of};
ghost use Rattle.figures.specs.Promises.{AddPromise, JoinPromise, ReportPromise};
ghost use Rattle.gamulisyan.specs.Version.{version};
ghost use Rattle.std.specs.Prelude.{◌≡◌};

use coders::Date;
use coders::decode::{DecodedDate, DecodedNumber};
use coders::encode::Encoded;
use figures::Figured;
use reader::Part;
use table::reply::Reply;
use which::Sorted;

#[unsafe(no_mangle)]
pub extern "C" fn gamulisyan_read(
    edition: u32,
    input: &[u8],
    rows: &mut [u32],
    words: &mut [u32],
) -> Reply
    ensures { ReadPromise edition input.now rows.old words.old result rows.new words.new }
{
    reader::read(edition, input, rows, words)
}

#[unsafe(no_mangle)]
pub extern "C" fn gamulisyan_read_tolerant(
    edition: u32,
    input: &[u8],
    rows: &mut [u32],
    words: &mut [u32],
) -> Reply
    ensures { TolerantPromise edition input.now rows.old words.old result rows.new words.new }
{
    reader::read_tolerant(edition, input, rows, words)
}

#[unsafe(no_mangle)]
pub extern "C" fn gamulisyan_read_plain(
    edition: u32,
    input: &[u8],
    rows: &mut [u32],
    words: &mut [u32],
) -> Reply
    ensures as_read { ReadPromise edition input.now rows.old words.old result rows.new words.new }
{
    plain::read::read_plain(edition, input, rows, words)
}

#[unsafe(no_mangle)]
pub extern "C" fn gamulisyan_read_plain_tolerant(
    edition: u32,
    input: &[u8],
    rows: &mut [u32],
    words: &mut [u32],
) -> Reply
    ensures as_read_tolerant { TolerantPromise edition input.now rows.old words.old result rows.new words.new }
{
    plain::read::read_plain_tolerant(edition, input, rows, words)
}

#[unsafe(no_mangle)]
pub extern "C" fn gamulisyan_which(input: &[u8], rows: &mut [u32], words: &mut [u32]) -> Sorted
    ensures { WhichPromise input.now rows.old words.old result rows.new words.new }
{
    which::which(input, rows, words)
}

#[unsafe(no_mangle)]
pub extern "C" fn gamulisyan_write(
    edition: u32,
    rows: &[u32],
    pool: &[u8],
    output: &mut [u8],
) -> Reply
    ensures { WritePromise edition rows.now pool.now output.old result output.new }
{
    writer::write(edition, rows, pool, output)
}

#[unsafe(no_mangle)]
pub extern "C" fn gamulisyan_ones(word: u32) -> u32
    ensures { result ≡ ones_of word }
{
    words::ones(word)
}

#[unsafe(no_mangle)]
pub extern "C" fn gamulisyan_payload(edition: u32, input: &[u8]) -> Part
    ensures { PartPromise edition input.now result }
{
    reader::payload_part(edition, input)
}

#[unsafe(no_mangle)]
pub extern "C" fn gamulisyan_present(edition: u32, rows: &[u32], pool: &[u8], code: u32) -> Reply
    ensures { PresentPromise edition rows.now pool.now code result }
{
    present::present(edition, rows, pool, code)
}

#[unsafe(no_mangle)]
pub extern "C" fn gamulisyan_lookup(rows: &[u32], words: &[u32], code: u32) -> Reply
    ensures { LookupPromise rows.now words.now code result }
{
    lookup::lookup(rows, words, code)
}

#[unsafe(no_mangle)]
pub extern "C" fn gamulisyan_relay(
    edition: u32,
    input: &[u8],
    table: &[u32],
    pool: &[u8],
    rows: &mut [u32],
    words: &mut [u32],
    output: &mut [u8],
) -> Reply
    ensures { RelayPromise edition input.now table.now pool.now rows.old words.old output.old result rows.new words.new output.new }
{
    relay::relay(edition, input, table, pool, rows, words, output)
}

#[unsafe(no_mangle)]
pub extern "C" fn gamulisyan_number_decode(bytes: &[u8]) -> DecodedNumber
    ensures { NumberDecodes bytes.now result }
{
    coders::decode::number(bytes)
}

#[unsafe(no_mangle)]
pub extern "C" fn gamulisyan_number_encode(value: u64, output: &mut [u8]) -> Encoded
    ensures { NumberEncodes value output.old output.new result }
{
    coders::encode::number(value, output)
}

#[unsafe(no_mangle)]
pub extern "C" fn gamulisyan_date_decode(kind: u32, bytes: &[u8]) -> DecodedDate
    ensures { DateDecodes kind bytes.now result }
{
    coders::decode::date(kind, bytes)
}

#[unsafe(no_mangle)]
pub extern "C" fn gamulisyan_date_encode(kind: u32, date: Date, output: &mut [u8]) -> Encoded
    ensures { DateEncodes kind (plain_of date) output.old output.new result }
{
    coders::encode::date(kind, date, output)
}

#[unsafe(no_mangle)]
pub extern "C" fn gamulisyan_figures_add(edition: u32, input: &[u8], figures: &mut [u64]) -> Figured
    ensures { AddPromise edition input.now figures.old figures.new result }
{
    figures::add::add(edition, input, figures)
}

#[unsafe(no_mangle)]
pub extern "C" fn gamulisyan_figures_join(others: &[u64], figures: &mut [u64]) -> Figured
    ensures { JoinPromise others.now figures.old figures.new result }
{
    figures::join::join(others, figures)
}

#[unsafe(no_mangle)]
pub extern "C" fn gamulisyan_figures_report(figures: &[u64], output: &mut [u8]) -> Figured
    ensures { ReportPromise figures.now output.old output.new result }
{
    figures::report::report(figures, output)
}

// A line that `./release` stamps. The promise ties it to specs/Version.antt: a stamp of one and not the other is not proved.
const VERSION: u32 = 0;

#[unsafe(no_mangle)]
pub extern "C" fn gamulisyan_version() -> u32
    ensures { result ≡ version }
{
    VERSION
}
