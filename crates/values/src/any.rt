// "Any-value: 14 and a text, or 16, 17, 19 with a length of 1, 2, 4 bytes (high first) and that many bytes."
ghost use Rattle.std.specs.Prelude.{length, ◌≡◌, ◌+◌, ◌-◌, ◌≤◌, ◌<◌, ltb};
ghost use Rattle.meaning.specs.Bytes.{Width, bytes_of, fewest, too_wide, take_block};
ghost use Rattle.meaning.specs.Kinds.{any_bytes};
ghost use Rattle.meaning.specs.Editions.{any_values};
ghost use Rattle.table.specs.Told.{told_of};
ghost use Rattle.values.specs.Stages.{Within, ValuedAt, CodedAt, rest};
ghost use Rattle.values.specs.Blocks.{IsWidth, BlockWithin, LengthAt};

use crate::bytes::{four_bytes, two_bytes};
use crate::text::Rule;
use crate::{Value, text};
use table::kinds::Kind;
use table::refusals::Refusal;
use table::told::{Strictness, Told};

// An any-value from its code on. It is put in place where it is called, so that its answer is never handed through memory.
#[inline(always)]
pub fn take(s: &[u8], at: usize, told: Told) -> Value
    requires { Within s.now at }
    ensures { CodedAt (told_of told) any_values 7 s.now at result }
{
    let end = s.len();
    if end <= at {
        return Value::Refused(Refusal::EnvelopeEnds.at(at));
    }
    let code = s[at];
    let first = at + 1;
    match code {
        0x14 => text::take(s, first, Kind::AnyText as u32, Rule::Note),
        0x16 => block(s, at, 1, told),
        0x17 => block(s, at, 2, told),
        0x19 => block(s, at, 4, told),
        _ => Value::Refused(Refusal::CodeWrong.at(at)),
    }
}

// The same for a transport behaviour; bytes behind a short length are taken without a call. With `take_called` and `in_parts` it stands beside
// `take` for speed: with `take` alone, put in place or called, an envelope full of behaviours took 60 in 100 more instructions.
pub fn take_in_place(s: &[u8], at: usize, told: Told) -> Value
    requires { Within s.now at }
    ensures { CodedAt (told_of told) any_values 7 s.now at result }
{
    let end = s.len();
    if at < end {
        if s[at] == 0x16 {
            return block(s, at, 1, told);
        }
        if s[at] == 0x17 {
            return block(s, at, 2, told);
        }
    }
    take_called(s, at, told)
}

// The same behind a call. A function of its own, so that bytes behind a short length are never handed through memory.
fn take_called(s: &[u8], at: usize, told: Told) -> Value
    requires { Within s.now at }
    ensures { CodedAt (told_of told) any_values 7 s.now at result }
{
    in_parts(take(s, at, told))
}

// Takes a value's answer. Answers the same, put together again from its parts: what a call left in memory goes on in registers.
fn in_parts(v: Value) -> Value
    ensures { result ≡ v }
{
    match v {
        Value::Is {
            kind,
            start,
            length,
            after,
        } => Value::Is {
            kind: kind,
            start: start,
            length: length,
            after: after,
        },
        Value::Refused(fault) => Value::Refused(fault),
    }
}

// Bytes behind a length of so many bytes. "11 comes after the length bytes, before the block", at the code.
fn block(s: &[u8], at: usize, width: usize, told: Told) -> Value
    requires { BlockWithin s.now at width }
    ensures { (w : Width) → bytes_of w ≡ width → ValuedAt s.now (at + 1) any_bytes 0 (take_block (told_of told) w (length s.now - at) (rest s.now (at + 1))) result }
{
    let end = s.len();
    let first = at + 1;
    let Some(length) = length_at(s, first, width) else {
        return Value::Refused(Refusal::EnvelopeEnds.at(end));
    };
    if too_wide(width, length, told) {
        return Value::Refused(Refusal::LengthFormWide.at(at));
    }
    let start = first + width;
    if end - start < length {
        return Value::Refused(Refusal::EnvelopeEnds.at(end));
    }
    Value::Is {
        kind: Kind::AnyBytes as u32,
        start: start,
        length: length,
        after: start + length,
    }
}

// Whether a length of n stands in a form that the reading refuses.
pub fn too_wide(width: usize, n: usize, told: Told) -> bool
    ensures { (w : Width) → bytes_of w ≡ width → result ≡ too_wide (told_of told) w n }
{
    let strictness = told.strictness;
    match strictness {
        Strictness::Tolerant => false,
        Strictness::Strict => wider_than_needed(width, n),
    }
}

// "The shortest length form is required": whether fewer bytes would hold a length of n.
fn wider_than_needed(width: usize, n: usize) -> bool
    ensures { (w : Width) → bytes_of w ≡ width → result ≡ ltb n (fewest w) }
{
    match width {
        1 => false,
        2 => n < 256,
        _ => n < 65536,
    }
}

// Takes the place of a length of 1, 2 or 4 bytes, high first. Answers the length, or that bytes are missing.
fn length_at(s: &[u8], at: usize, width: usize) -> Option<usize>
    requires { (Within s.now at) × (IsWidth width) }
    ensures { LengthAt s.now at width result }
{
    let end = s.len();
    if end - at < width {
        return None;
    }
    match width {
        1 => Some(usize::from(s[at])),
        2 => Some(two_bytes(s, at)),
        _ => Some(four_bytes(s, at)),
    }
}
