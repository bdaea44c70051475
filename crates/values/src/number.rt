// "Payload length has no identifier byte. It has decimal digits only, no leading zero, and at most 4,294,967,295."
ghost use Rattle.std.specs.Prelude.{◌≡◌, true, ◌≤◌, ◌<◌};
ghost use Rattle.meaning.specs.Bytes.{take_number, number_most};
ghost use Rattle.meaning.specs.Kinds.{payload_length};
ghost use Rattle.values.specs.Stages.{Within, ValuedAt, rest};
ghost use Rattle.values.specs.Numbers.{Turned, CountedAt};

use crate::Value;
use crate::digits::{digit, is_digit};
use table::answers::Fault;
use table::kinds::Kind;
use table::refusals::Refusal;

pub const MOST: u64 = 4294967295;

// What a byte does to the number so far: an enum of its own, since it has three cases.
#[derive(Drop)]
pub enum Turning {
    Stop(u64),
    More(u64),
    Wrong,
}

// "either a value with the place after it, or a refusal": the number's value, which a row has no place for.
#[derive(Drop)]
pub enum Number {
    Counts { value: u64, after: usize },
    Fails(Fault),
}

// A payload length from its first byte on.
pub fn take(s: &[u8], at: usize) -> Value
    requires { Within s.now at }
    ensures { ValuedAt s.now at payload_length 0 (take_number 0 true (rest s.now at)) result }
{
    match count(s, at) {
        Number::Counts { value: _, after } => Value::Is {
            kind: Kind::PayloadLength as u32,
            start: at,
            length: after - at,
            after: after,
        },
        Number::Fails(fault) => Value::Refused(fault),
    }
}

// A payload length from its first byte on: its value and the place behind it, or the refusal.
pub fn count(s: &[u8], at: usize) -> Number
    requires { Within s.now at }
    ensures { CountedAt s.now at result }
{
    let end = s.len();
    let mut number = 0;
    for i in at..end {
        match turn(number, i == at, u32::from(s[i])) {
            Turning::Wrong => return Number::Fails(Refusal::NumberWrong.at(i)),
            Turning::Stop(value) => return Number::Counts {
                value: value,
                after: i + 1,
            },
            Turning::More(value) => number = value,
        }
    }
    Number::Fails(Refusal::EnvelopeEnds.at(end))
}

// Takes the number so far, whether this is its first byte, and the byte. Answers what the byte does to it: it ends the number, leads on, or is wrong.
// "An odd digit count ends with four zero bits, an even one with a byte 00."
pub fn turn(number: u64, first: bool, b: u32) -> Turning
    requires { (number ≤ number_most) × (b < 256) }
    ensures { Turned number first b result }
{
    if b == 0 {
        if first {
            return Turning::Wrong;
        }
        return Turning::Stop(number);
    }
    let one = 10 * number + digit(b / 16) as u64;
    if is_digit(b / 16) & (one <= MOST) {
        if b % 16 == 0 {
            return Turning::Stop(one);
        }
        let two = 10 * one + digit(b % 16) as u64;
        let leading = first & (b / 16 == 1);
        if is_digit(b % 16) & !leading & (two <= MOST) {
            return Turning::More(two);
        }
    }
    Turning::Wrong
}
