// "Date: a code, then year 4 digits, month, day, hour, minute, second 2 each, millisecond 3 digits and four zero bits."
#![tactic(auto)]

ghost use Rattle.std.specs.Prelude.{◌≡◌, List, [], true, ℕ, ◌+◌, ◌≤◌, ◌<◌, length, get_or};
ghost use Rattle.meaning.specs.Basics.{pick};
ghost use Rattle.meaning.specs.Bytes.{pair_within, passes, half, letter, is_leap, last_day, last_day_after, date_checks, take_date};
ghost use Rattle.meaning.specs.Told.{Told, B, D};
ghost use Rattle.table.specs.Told.{edition_of};
ghost use Rattle.values.specs.Stages.{Coded, Within, ValuedAt, CodedAt, rest};
ghost use Rattle.date.specs.Dates.{value_by, reaching, absolute_check, check_at, earlier, date_length, Passing, DateCode, dates_of};

use table::answers::Fault;
use table::kinds::Kind;
use table::refusals::Refusal;
use table::told::Edition;
use values::Value;
use values::digits::{is_digit, pair_at, pair_byte};

// What a date's code says of its bytes: whether they are held to the calendar, and whether a designator follows.
#[derive(Clone, Copy)]
pub struct Form {
    pub absolute: bool,
    pub designated: bool,
}

// A date by its code: its row's kind, and the form of its bytes.
#[derive(Clone, Copy)]
struct Dated {
    kind: Kind,
    form: Form,
}

// A date from its code on.
pub fn take(s: &[u8], at: usize, edition: Edition) -> Value
    requires { Within s.now at }
    ensures { (t : Told) → CodedAt t (dates_of (edition_of edition)) 9 s.now at result }
{
    let end = s.len();
    if end <= at {
        return Value::Refused(Refusal::EnvelopeEnds.at(at));
    }
    let Some(dated) = dated_by(edition, s[at]) else {
        return Value::Refused(Refusal::DateWrong.at(at));
    };
    let first = at + 1;
    match bytes(s, first, dated.form) {
        Ok(after) => Value::Is {
            kind: dated.kind.number(),
            start: first,
            length: after - first,
            after: after,
        },
        Err(fault) => Value::Refused(fault),
    }
}

// The nine bytes of a date, and its designator. Answers the place behind them, or the refusal. It is put in place where it is called: behind a call the
// date encoder took half as much stack again.
#[inline(always)]
pub fn bytes(s: &[u8], at: usize, form: Form) -> Result<usize, Fault>
    requires { Within s.now at }
    ensures { (kind : ℕ) → ValuedAt s.now at kind 0 (take_date (date_checks (reaching form.absolute) form.designated) [] (rest s.now at)) (value_by kind at result) }
{
    let end = s.len();
    let length = length_of(form.designated);
    for j in passed(s, at, form.absolute)..length {
        if end - at <= j {
            return Err(Refusal::EnvelopeEnds.at(end));
        }
        if !byte_passes(s, at, j, form.absolute) {
            return Err(Refusal::DateWrong.at(at + j));
        }
    }
    Ok(at + length)
}

// How many bytes a date has, with a designator or without.
pub fn length_of(designated: bool) -> usize
    ensures { result ≡ date_length designated }
{
    if designated {
        return 10;
    }
    9
}

// How many bytes of a date pass at a first look: all nine, where they are there and pass together, or none.
fn passed(s: &[u8], at: usize, absolute: bool) -> usize
    requires { Within s.now at }
    ensures { (result ≤ 9) × (at + result ≤ length s.now) × Passing s.now at absolute result }
{
    let end = s.len();
    if end - at < 9 {
        return 0;
    }
    if nine_pass(s, at, absolute) {
        return 9;
    }
    0
}

// Whether the nine bytes of the date that begins at `at` all pass their checks.
fn nine_pass(s: &[u8], at: usize, absolute: bool) -> bool
    requires { at + 9 ≤ length s.now }
    ensures { result ≡ true → Passing s.now at absolute 9 }
{
    let year = byte_passes(s, at, 0, absolute) & byte_passes(s, at, 1, absolute);
    let day = byte_passes(s, at, 2, absolute) & byte_passes(s, at, 3, absolute);
    let minute = byte_passes(s, at, 4, absolute) & byte_passes(s, at, 5, absolute);
    let second = byte_passes(s, at, 6, absolute) & byte_passes(s, at, 7, absolute);
    year & day & minute & second & byte_passes(s, at, 8, absolute)
}

// Whether byte j of the date that begins at `at` passes its check.
pub fn byte_passes(s: &[u8], at: usize, j: usize, absolute: bool) -> bool
    requires { at + j < length s.now }
    ensures { result ≡ passes (check_at absolute j) (earlier s.now at j) (get_or s.now (at + j) 0) }
{
    let i = at + j;
    let b = u32::from(s[i]);
    if j == 8 {
        return padded(b);
    }
    if j == 9 {
        return is_letter(s[i]);
    }
    if absolute {
        return in_calendar(s, at, j, b);
    }
    within(b, 0, 99)
}

// Takes byte j of an absolute date: "month 1 to 12, .. hour to 23, minute and second to 59". Answers whether it passes.
fn in_calendar(s: &[u8], at: usize, j: usize, b: u32) -> bool
    requires { (at + j < length s.now) × (b < 256) }
    ensures { result ≡ passes (absolute_check j) (earlier s.now at j) b }
{
    match j {
        2 => within(b, 1, 12),
        3 => day_passes(s, at, b),
        4 => within(b, 0, 23),
        5 => within(b, 0, 59),
        6 => within(b, 0, 59),
        _ => within(b, 0, 99),
    }
}

// Takes the day's byte. Answers whether its month has that day. Every month has 28: most dates need no year.
fn day_passes(s: &[u8], at: usize, b: u32) -> bool
    requires { (at + 3 ≤ length s.now) × (b < 256) }
    ensures { result ≡ pair_within 1 (last_day_after (earlier s.now at 3)) b }
{
    if within(b, 1, 28) {
        return true;
    }
    within(b, 29, last_day(s, at))
}

// The last day of the month that the three bytes from `at` on name, with its year.
fn last_day(s: &[u8], at: usize) -> u32
    requires { at + 3 ≤ length s.now }
    ensures { result ≡ last_day_after (earlier s.now at 3) }
{
    month_days(
        100 * pair_at(s, at) + pair_at(s, at + 1),
        pair_at(s, at + 2),
    )
}

// "the days of their month by the Gregorian rule".
fn month_days(year: u32, month: u32) -> u32
    ensures { result ≡ last_day year month }
{
    match month {
        2 => february_days(year),
        4 | 6 | 9 | 11 => 30,
        _ => 31,
    }
}

// 29 in a leap year, which 4 divides and 100 does not, or 400 does; else 28.
fn february_days(year: u32) -> u32
    ensures { result ≡ pick (is_leap year) 29 28 }
{
    let leap = (year % 4 == 0) & ((year % 100 != 0) | (year % 400 == 0));
    if leap {
        return 29;
    }
    28
}

// Two digits between two bounds. Coded digits stand in the order of the digits: the byte is held against the bounds' bytes.
fn within(b: u32, least: u32, most: u32) -> bool
    requires { (b < 256) × (least ≤ 99) × (most ≤ 99) }
    ensures { result ≡ pair_within least most b }
{
    let first = u32::from(pair_byte(least));
    let last = u32::from(pair_byte(most));
    is_digit(b % 16) & (first..=last).contains(&b)
}

// A digit and four zero bits.
fn padded(b: u32) -> bool
    ensures { (before : List ℕ) → result ≡ passes half before b }
{
    is_digit(b / 16) & (b % 16 == 0)
}

// "The designator is one ASCII letter."
fn is_letter(b: u8) -> bool
    ensures { (before : List ℕ) → result ≡ passes letter before b }
{
    b.is_ascii_alphabetic()
}

// "Codes in B: 20 absolute, 21 absolute with designator. In D: 20, 21, 22 absolute, forward, backward; 24, 25, 26 the same with designator."
// Takes a date's code. Answers what it says in the edition, or that it is none there.
fn dated_by(edition: Edition, code: u8) -> Option<Dated>
    ensures { DateCode (edition_of edition) code result }
{
    let (kind, designated) = match (edition, code) {
        (_, 0x20) => (Kind::DateAbsolute, false),
        (Edition::B, 0x21) => (Kind::DateAbsolute, true),
        (Edition::D, 0x21) => (Kind::DateForward, false),
        (Edition::D, 0x22) => (Kind::DateBackward, false),
        (Edition::D, 0x24) => (Kind::DateAbsolute, true),
        (Edition::D, 0x25) => (Kind::DateForward, true),
        (Edition::D, 0x26) => (Kind::DateBackward, true),
        _ => return None,
    };
    let absolute = kind == Kind::DateAbsolute;
    Some(Dated {
        kind: kind,
        form: Form {
            absolute: absolute,
            designated: designated,
        },
    })
}
