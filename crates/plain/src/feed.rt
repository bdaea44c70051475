// A value byte by byte: what is being taken, and what the next byte does to it.
#![tactic(auto, unfolding(crate::specs::Values::Valid, meaning::specs::Bytes::text_byte))]

ghost use Rattle.std.specs.Prelude.{◌≡◌, List, ℕ, ◌+◌, ◌≤◌, ◌<◌, length};
ghost use Rattle.meaning.specs.Told as meaning;
ghost use Rattle.meaning.specs.Bytes.{text_byte};
ghost use Rattle.laws_steps.specs.Pouring.{header_most};
ghost use Rattle.table.specs.Told.{told_of};
ghost use Rattle.values.specs.Stages.{rule_of};
ghost use Rattle.plain.specs.Values.{Valid, Feeds, block_from};

use date::{byte_passes, length_of};
use moves::rooms::Next;
use table::answers::Fault;
use table::kinds::Kind;
use table::refusals::Refusal;
use table::told::Told;
use values::any::too_wide;
use values::number::{Turning, turn};
use values::text::{Rule, in_note};

// The row that a value will have, and where its move leads: kind, next, and where it begins.
#[derive(Clone, Copy)]
pub struct Pending {
    pub kind: Kind,
    pub next: Next,
    pub start: usize,
}

// What is being taken: a text by its rule; a date, absolute or not, with a designator or without; a number, and what it is so far; a length of so many
// bytes, and what it is so far; a block, and the place behind it. How far it is taken, the place says.
#[derive(Clone, Copy)]
pub enum Taking {
    Text {
        rule: Rule,
        of: Pending,
    },
    Date {
        absolute: bool,
        designated: bool,
        of: Pending,
    },
    Number {
        so_far: u64,
        of: Pending,
    },
    Length {
        width: usize,
        so_far: usize,
        of: Pending,
    },
    Block {
        until: usize,
        of: Pending,
    },
}

// What a byte does: a value is taken further; a row ends, with this length; a move without a row was made; the envelope's 01 was the byte before; or the
// byte is refused. No function goes on behind another's refusal here, so that a Result's `?` would stand nowhere.
#[derive(Drop)]
pub enum Fed {
    Goes(Taking),
    Ends { of: Pending, length: usize },
    Moves(Next),
    Over,
    Wrong(Fault),
}

impl Taking {
    // Takes the place of the next byte. Answers what the byte does to the value.
    pub fn feed(self, told: Told, s: &[u8], at: usize) -> Fed
        requires { (Valid self at) × (at < length s.now) × (at < header_most) }
        ensures { Feeds (told_of told) s.now self at result }
    {
        match self {
            Taking::Text { rule, of } => feed_text(rule, of, s, at),
            Taking::Date {
                absolute,
                designated,
                of,
            } => feed_date(absolute, designated, of, s, at),
            Taking::Number { so_far, of } => feed_number(so_far, of, s, at),
            Taking::Length { width, so_far, of } => feed_length(width, so_far, of, told, s, at),
            Taking::Block { until, of } => feed_block(until, of, at),
        }
    }
}

// A text's byte: "8: text byte 01 to 1F, that byte".
pub fn feed_text(rule: Rule, of: Pending, s: &[u8], at: usize) -> Fed
    requires { (Valid (Taking.Text rule of) at) × (at < length s.now) }
    ensures { (t : meaning.Told) → Feeds t s.now (Taking.Text rule of) at result }
{
    let b = s[at];
    if b == 0 {
        return Fed::Ends {
            of,
            length: at - of.start,
        };
    }
    if allows(rule, b) {
        return Fed::Goes(Taking::Text { rule, of });
    }
    Fed::Wrong(Refusal::TextWrong.at(at))
}

// Whether a text of this rule has this byte.
fn allows(rule: Rule, b: u8) -> bool
    ensures { result ≡ text_byte (rule_of rule) b }
{
    match rule {
        Rule::Line => 0x20 <= b,
        Rule::Note => in_note(b),
    }
}

// A date's byte, by its check.
fn feed_date(absolute: bool, designated: bool, of: Pending, s: &[u8], at: usize) -> Fed
    requires { (Valid (Taking.Date absolute designated of) at) × (at < length s.now) }
    ensures { (t : meaning.Told) → Feeds t s.now (Taking.Date absolute designated of) at result }
{
    let start = of.start;
    let j = at - start;
    if byte_passes(s, start, j, absolute) {
        let length = j + 1;
        if length < length_of(designated) {
            return Fed::Goes(Taking::Date {
                absolute,
                designated,
                of,
            });
        }
        return Fed::Ends { of, length };
    }
    Fed::Wrong(Refusal::DateWrong.at(at))
}

// A payload length's byte.
fn feed_number(so_far: u64, of: Pending, s: &[u8], at: usize) -> Fed
    requires { (Valid (Taking.Number so_far of) at) × (at < length s.now) }
    ensures { (t : meaning.Told) → Feeds t s.now (Taking.Number so_far of) at result }
{
    let start = of.start;
    match turn(so_far, at == start, u32::from(s[at])) {
        Turning::Wrong => Fed::Wrong(Refusal::NumberWrong.at(at)),
        Turning::Stop(_) => Fed::Ends {
            of,
            length: at - start + 1,
        },
        Turning::More(so_far) => Fed::Goes(Taking::Number { so_far, of }),
    }
}

// A byte of a block's length: "11 comes after the length bytes, before the block", at the code.
fn feed_length(width: usize, so_far: usize, of: Pending, told: Told, s: &[u8], at: usize) -> Fed
    requires { (Valid (Taking.Length width so_far of) at) × (at < length s.now) × (at < header_most) }
    ensures { Feeds (told_of told) s.now (Taking.Length width so_far of) at result }
{
    let start = of.start;
    let n = 256 * so_far + usize::from(s[at]);
    let first = at + 1;
    if first - start < width {
        return Fed::Goes(Taking::Length {
            width,
            so_far: n,
            of,
        });
    }
    if too_wide(width, n, told) {
        return Fed::Wrong(Refusal::LengthFormWide.at(start - 1));
    }
    block_from(first, n, of)
}

// A block of n bytes from a place on: none of them may be there to take.
fn block_from(first: usize, n: usize, of: Pending) -> Fed
    requires { (n < 4294967296) × (first ≤ header_most) }
    ensures { result ≡ block_from first n of }
{
    let here = Pending { start: first, ..of };
    if n == 0 {
        return Fed::Ends {
            of: here,
            length: 0,
        };
    }
    Fed::Goes(Taking::Block {
        until: first + n,
        of: here,
    })
}

// A block's byte.
fn feed_block(until: usize, of: Pending, at: usize) -> Fed
    requires { Valid (Taking.Block until of) at }
    ensures { (t : meaning.Told) (s : List ℕ) → Feeds t s (Taking.Block until of) at result }
{
    let after = at + 1;
    if after < until {
        return Fed::Goes(Taking::Block { until, of });
    }
    Fed::Ends {
        of,
        length: after - of.start,
    }
}
