// "The report has a line for each edition: edition, accepted, refused by 2 to 13, envelopes, header bytes, mean, remainder, with tabs; then a line with the unknown
// count."
ghost use Rattle.std.specs.Prelude.{◌≡◌, [], ◌∷◌, ◌++◌, true, ◌+◌, ◌*◌, ◌≤◌, length, drop};
ghost use Rattle.meaning.specs.Listing.{decimal};
ghost use Rattle.meaning.specs.Figures.{edition_width, figures_borrowed, mean_of, remainder_of, report_line};
ghost use Rattle.pen.specs.Fields.{fields_of};
ghost use Rattle.figures.specs.Stages.{Printed, Laid, field_most, line_most, text_most};
ghost use Rattle.figures.specs.Promises.{ReportPromise};
ghost use Rattle.meaning.specs.Figures as meaning;

use crate::Figured;
use crate::judge::{BYTES_AT, EDITION_NUMBERS, UNKNOWN_AT, messages};
use pen::{NEWLINE, TAB, field};
use table::refusals::Refusal;

// Memory for any report: no number has more than twenty digits.
const TEXT_MOST: usize = 1024;

// Takes figures. Writes their report over the front of `output` and answers 0 and its bytes. Refuses, with nothing changed, numbers that are no figures (19 at 0), and
// an output that is too short (16, with the bytes needed as place).
pub fn report(figures: &[u64], output: &mut [u8]) -> Figured
    ensures { ReportPromise figures.now output.old output.new result }
{
    let Some(_) = messages(figures) else {
        return Refusal::FiguresFull.at(0).into();
    };
    let mut text = [0u8; TEXT_MOST];
    let end = print(figures, &mut text);
    lay(&text[..end], output)
}

// Writes the report of figures into memory that is long enough for any.
fn print(figures: &[u64], out: &mut [u8]) -> usize
    requires { (length figures.now ≡ figures_borrowed) × (text_most ≤ length out.old) }
    ensures { Printed out.old out.new 0 text_most (meaning.report figures.now) result }
{
    let of_b = line(figures, 0, 1, out, 0);
    let of_d = line(figures, EDITION_NUMBERS, 2, out, of_b);
    print_field(out, of_d, figures[UNKNOWN_AT], NEWLINE)
}

// Writes the line of the edition whose numbers begin at `first`.
fn line(figures: &[u64], first: usize, edition: u64, out: &mut [u8], at: usize) -> usize
    requires { (first + edition_width ≤ length figures.now) × (at + line_most ≤ length out.old) }
    ensures { Printed out.old out.new at line_most (report_line edition (drop first figures.now)) result }
{
    let end = first + EDITION_NUMBERS;
    let accepted = figures[first];
    let bytes = figures[first + BYTES_AT];
    let named = print_field(out, at, edition, TAB);
    let numbered = fields(&figures[first..end], out, named);
    let meant = print_field(out, numbered, mean_of(bytes, accepted), TAB);
    print_field(out, meant, remainder_of(bytes, accepted), NEWLINE)
}

// Writes numbers, each with its tab.
fn fields(numbers: &[u64], out: &mut [u8], at: usize) -> usize
    requires { at + field_most * length numbers.now ≤ length out.old }
    ensures { Printed out.old out.new at (field_most * length numbers.now) (fields_of numbers.now) result }
{
    let mut end = at;
    for number in numbers {
        end = print_field(out, end, *number, TAB);
    }
    end
}

// Writes a number and the byte that closes its field: 21 bytes at most.
fn print_field(out: &mut [u8], at: usize, value: u64, closing: u8) -> usize
    requires { at + field_most ≤ length out.old }
    ensures { Printed out.old out.new at field_most (decimal value ++ (closing ∷ [])) result }
{
    field(out, at, value, closing)
}

// "the mean header size as a whole part and a remainder over accepted messages (0 and 0 if there were none)": the whole part.
fn mean_of(bytes: u64, accepted: u64) -> u64
    ensures { result ≡ mean_of bytes accepted }
{
    bytes.checked_div(accepted).unwrap_or(0)
}

// .. the remainder.
fn remainder_of(bytes: u64, accepted: u64) -> u64
    ensures { result ≡ remainder_of bytes accepted }
{
    bytes.checked_rem(accepted).unwrap_or(0)
}

// Takes a text. Lays it over the front of `output` and answers 0 and its length, or refuses an output that is too short (16).
fn lay(text: &[u8], output: &mut [u8]) -> Figured
    ensures { Laid text.now output.old output.new result }
{
    let many = text.len();
    if output.len() < many {
        return Refusal::OutputShort.at(many).into();
    }
    output[..many].copy_from_slice(text);
    Figured {
        answer: 0,
        place: many,
    }
}
