// "Text: bytes 20 to FF (hex), possibly none, then 00", and in notes line breaks.
ghost use Rattle.std.specs.Prelude.{◌≡◌, true, false, ℕ, ◌+◌, ◌-◌, ◌≤◌, ◌<◌, length, get_or};
ghost use Rattle.meaning.specs.Bytes.{line, note, is_break, text_byte, take_text};
ghost use Rattle.values.specs.Stages.{rule_of, rule_by, all_text, FirstBelow, Within, ValuedAt, SkippedAt, RunAt, LineRunAt, rest};

use crate::Value;
use std::simd::prelude::*;
use table::refusals::Refusal;

// What a text is for: a line, or a note, which may have line breaks.
#[derive(Clone, Copy)]
pub enum Rule {
    Line,
    Note,
}

// The least byte of a line.
const FIRST_TEXT: u8 = 0x20;

// A text by its rule, from its first byte on: its row and the place behind its 00, or the refusal.
pub fn take(s: &[u8], at: usize, kind: u32, rule: Rule) -> Value
    requires { Within s.now at }
    ensures { ValuedAt s.now at kind 1 (take_text (rule_of rule) (rest s.now at)) result }
{
    let i = stop(s, at, rule);
    ended(s, at, i, kind)
}

// The same of a line that seldom stands there: a function of its own for speed, since its bytes are looked at behind a call and the code
// before it stays short.
pub fn rare_line(s: &[u8], at: usize, kind: u32) -> Value
    requires { Within s.now at }
    ensures { ValuedAt s.now at kind 1 (take_text line (rest s.now at)) result }
{
    let i = long_line(s, at);
    ended(s, at, i, kind)
}

// Takes the place i where the run of the text at `at` stops. Answers the row and the place behind its 00, or the refusal at i.
fn ended(s: &[u8], at: usize, i: usize, kind: u32) -> Value
    requires { (at ≤ i) × (i ≤ length s.now) }
    ensures { (rule : Rattle.meaning.specs.Bytes.Rule) → RunAt rule s.now at i → ValuedAt s.now at kind 1 (take_text rule (rest s.now at)) result }
{
    let end = s.len();
    if end <= i {
        return Value::Refused(Refusal::EnvelopeEnds.at(i));
    }
    if s[i] == 0 {
        let length = i - at;
        let after = i + 1;
        return Value::Is {
            kind: kind,
            start: at,
            length: length,
            after: after,
        };
    }
    Value::Refused(Refusal::TextWrong.at(i))
}

// As `run`, for a reading, in which most texts stop before the end: an empty text is found at one look.
fn stop(s: &[u8], at: usize, rule: Rule) -> usize
    requires { Within s.now at }
    ensures { RunAt (rule_of rule) s.now at result }
{
    match rule {
        Rule::Line => {
            if stands_below(s, at, FIRST_TEXT) {
                return at;
            }
            line_stop(s, at)
        }
        Rule::Note => {
            if stands_below(s, at, 1) {
                return at;
            }
            note_run(s, at)
        }
    }
}

// Whether a byte below this one stands there, before the end.
fn stands_below(s: &[u8], at: usize, bound: u8) -> bool
    requires { Within s.now at }
    ensures { result ≡ true → get_or s.now at 0 < bound }
{
    let end = s.len();
    at < end && s[at] < bound
}

// The first place whose byte the rule does not allow, or the end.
pub fn run(s: &[u8], at: usize, rule: Rule) -> usize
    requires { Within s.now at }
    ensures { RunAt (rule_of rule) s.now at result }
{
    match rule {
        Rule::Line => line_run(s, at),
        Rule::Note => note_run(s, at),
    }
}

// Past sixteen bytes at a time, with breaks among them where a line's stretch stops; what is left line by line.
fn note_run(s: &[u8], at: usize) -> usize
    requires { Within s.now at }
    ensures { RunAt note s.now at result }
{
    let end = s.len();
    let mut i = sixteens(s, at);
    while 16 <= end - i && all_text::<true, 16>(s, i) {
        i = sixteens(s, i + 16);
    }
    line_by_line(s, i)
}

// Past a line and its break, and on with the next.
fn line_by_line(s: &[u8], at: usize) -> usize
    requires { Within s.now at }
    ensures { RunAt note s.now at result }
{
    let end = s.len();
    let mut i = long_line(s, at);
    while i < end && is_break(s[i]) {
        i = long_line(s, i + 1);
    }
    i
}

// "Bytes 09, 0A and 0D".
fn is_break(b: u8) -> bool
    ensures { result ≡ is_break b }
{
    (b == 0x09) | (b == 0x0a) | (b == 0x0d)
}

// The first place whose byte is below 20, or the end: of a line that may be long.
fn long_line(s: &[u8], at: usize) -> usize
    requires { Within s.now at }
    ensures { LineRunAt s.now at result }
{
    let i = sixteens(s, at);
    line_stop(s, i)
}

// Past sixteen bytes at a time while all of them are of a line. A step of sixteen or of eight, here and below, is no iterator's: what is left
// behind the last one is looked at from that place on.
fn sixteens(s: &[u8], at: usize) -> usize
    requires { Within s.now at }
    ensures { (rule : Rattle.meaning.specs.Bytes.Rule) → SkippedAt rule s.now at result }
{
    let end = s.len();
    let mut i = at;
    while 16 <= end - i && all_text::<false, 16>(s, i) {
        i += 16;
    }
    i
}

// The first place whose byte is below 20, or the end, where it is likely to stop before that: eight bytes at a time, asking which stops it.
fn line_stop(s: &[u8], at: usize) -> usize
    requires { Within s.now at }
    ensures { LineRunAt s.now at result }
{
    let end = s.len();
    let mut i = at;
    while i + 8 <= end {
        if let Some(before) = first_below(s, i) {
            return i + before;
        }
        i += 8;
    }
    last_run(s, i)
}

// The same where it is likely to come to the end, as with bytes to be written: to ask only whether all eight are of a line takes less.
fn line_run(s: &[u8], at: usize) -> usize
    requires { Within s.now at }
    ensures { LineRunAt s.now at result }
{
    let end = s.len();
    let mut i = at;
    while 8 <= end - i && all_text::<false, 8>(s, i) {
        i += 8;
    }
    last_run(s, i)
}

// The same, byte by byte: of the few that are left before the end.
pub fn last_run(s: &[u8], at: usize) -> usize
    requires { Within s.now at }
    ensures { LineRunAt s.now at result }
{
    let end = s.len();
    for i in at..end {
        if s[i] < FIRST_TEXT {
            return i;
        }
    }
    end
}

// Which of the eight bytes from a place on is the first below 20, by one comparison of vectors; or that none is.
fn first_below(s: &[u8], at: usize) -> Option<usize>
    requires { at + 8 ≤ length s.now }
    ensures { FirstBelow s.now at result }
{
    let below = u8x8::from_slice(&s[at..])
        .simd_lt(u8x8::splat(FIRST_TEXT))
        .to_bitmask();
    if below == 0 {
        return None;
    }
    Some(below.trailing_zeros() as usize)
}

// Whether the next N bytes are all of a line, or of a note: `&` and not `&&`, so that they are compared by vectors.
fn all_text<const NOTE: bool, const N: usize>(s: &[u8], at: usize) -> bool
    requires { at + N ≤ length s.now }
    ensures { result ≡ all_text (rule_by NOTE) s.now at N }
{
    let mut all = true;
    for b in &s[at..at + N] {
        all = all & allows::<NOTE>(*b);
    }
    all
}

// Whether a line, or a note, allows a byte: "bytes 20 to FF (hex)", and in a note breaks.
fn allows<const NOTE: bool>(b: u8) -> bool
    ensures { result ≡ text_byte (rule_by NOTE) b }
{
    (b >= FIRST_TEXT) | (NOTE & is_break(b))
}

// Whether a note allows a byte.
pub fn in_note(b: u8) -> bool
    ensures { result ≡ text_byte note b }
{
    allows::<true>(b)
}
