// Plain values of coded bytes: "Number and date decoders answer 9 or 10 with the place in their own slice, which must hold exactly one value;
// an early end or a byte left over is refused at that offset."
ghost use Rattle.std.specs.Prelude.{◌≡◌, ◌<◌, get_or};
ghost use Rattle.meaning.specs.Bytes.{two_digits};
ghost use Rattle.meaning.specs.Plain.{dated};
ghost use Rattle.date.specs.Dates.{reaching, date_length};
ghost use Rattle.coders.specs.Plain.{NumberDecodes, DateDecodes, DecodesReach, unread_at, undecoded_at};
ghost use Rattle.coders.specs.Stepped.{Passed, Reads, Ends, decoded_by, has_designator};

use crate::{Date, is_absolute};
use date::byte_passes;
use table::refusals::Refusal;
use values::digits::{digit, two_digits};
use values::number::{Number, count};

// An answer, the bytes read or its place, and the number, 0 where it is refused.
#[repr(C)]
#[derive(Drop)]
pub struct DecodedNumber {
    pub answer: u32,
    pub place: usize,
    pub value: u64,
}

// An answer, the bytes read or its place, and the date, all 0 where it is refused.
#[repr(C)]
#[derive(Drop)]
pub struct DecodedDate {
    pub answer: u32,
    pub place: usize,
    pub date: Date,
}

// The number that all of `bytes` code, or 10 at the byte that is wrong, missing or left over.
pub fn number(bytes: &[u8]) -> DecodedNumber
    ensures { NumberDecodes bytes.now result }
{
    let end = bytes.len();
    match count(bytes, 0) {
        Number::Fails(fault) => unread(fault.at),
        Number::Counts { value: _, after } if after < end => unread(after),
        Number::Counts { value, after } => DecodedNumber {
            answer: 0,
            place: after,
            value: value,
        },
    }
}

// "a refused decoder's values are all 0"
fn unread(place: usize) -> DecodedNumber
    ensures { result ≡ unread_at place }
{
    DecodedNumber {
        answer: Refusal::NumberWrong.answer(),
        place: place,
        value: 0,
    }
}

// The date of a kind that all of `bytes` code, or 9 at the byte that is wrong, missing or left over. "Another kind is 9 at 0."
// Byte by byte: each is tested and becomes its component. Components go out only where all bytes have passed.
pub fn date(kind: u32, bytes: &[u8]) -> DecodedDate
    ensures { DateDecodes kind bytes.now result }
{
    let Some(absolute) = is_absolute(kind) else {
        return undecoded(0);
    };
    reached(bytes, absolute)
}

// Takes a date's bytes and whether it is held to the calendar.
fn reached(bytes: &[u8], absolute: bool) -> DecodedDate
    ensures { DecodesReach (dated (reaching absolute)) bytes.now result }
{
    match components(bytes, absolute) {
        Err(place) => undecoded(place),
        Ok(date) => DecodedDate {
            answer: 0,
            place: bytes.len(),
            date: date,
        },
    }
}

// Takes the same. Each byte is tested and becomes its component. Answers the components, or the place of the byte that is wrong, missing or left over.
// What it calls is put in place: the decoder is one frame.
fn components(bytes: &[u8], absolute: bool) -> Result<Date, usize>
    ensures { DecodesReach (dated (reaching absolute)) bytes.now (decoded_by bytes.now result) }
{
    let century = pair(bytes, 0, absolute)?;
    let year = pair(bytes, 1, absolute)?;
    let month = pair(bytes, 2, absolute)?;
    let day = pair(bytes, 3, absolute)?;
    let hour = pair(bytes, 4, absolute)?;
    let minute = pair(bytes, 5, absolute)?;
    let second = pair(bytes, 6, absolute)?;
    let hundredths = pair(bytes, 7, absolute)?;
    let thousandths = byte(bytes, 8, absolute)?;
    let designator = designator(bytes, absolute)?;
    Ok(Date {
        year: 100 * century + year,
        month: month,
        day: day,
        hour: hour,
        minute: minute,
        second: second,
        millisecond: 10 * hundredths + digit(thousandths / 16),
        designator: designator,
    })
}

// After the nine bytes: "a tenth byte is the designator", and nothing is left over. Answers the designator or 0, or the place of the refusal.
#[inline(always)]
fn designator(bytes: &[u8], absolute: bool) -> Result<u32, usize>
    requires { Passed bytes.now absolute 9 }
    ensures { Ends bytes.now absolute result }
{
    if bytes.len() == 9 {
        return Ok(0);
    }
    let letter = byte(bytes, 9, absolute)?;
    if 10 < bytes.len() {
        return Err(10);
    }
    Ok(letter)
}

// Takes a byte's number, where all before it have passed. Answers the number of its two digits, or its place where it is missing or wrong.
#[inline(always)]
fn pair(bytes: &[u8], j: usize, absolute: bool) -> Result<u32, usize>
    requires { Passed bytes.now absolute j × (j < 8) }
    ensures { Reads bytes.now absolute j (two_digits (get_or bytes.now j 0)) result }
{
    Ok(two_digits(byte(bytes, j, absolute)?))
}

// The same of the byte itself.
#[inline(always)]
fn byte(bytes: &[u8], j: usize, absolute: bool) -> Result<u32, usize>
    requires { Passed bytes.now absolute j × (j < date_length (has_designator bytes.now)) }
    ensures { Reads bytes.now absolute j (get_or bytes.now j 0) result }
{
    if bytes.len() <= j {
        return Err(j);
    }
    if !byte_passes(bytes, 0, j, absolute) {
        return Err(j);
    }
    Ok(u32::from(bytes[j]))
}

// "a refused decoder's values are all 0"
fn undecoded(place: usize) -> DecodedDate
    ensures { result ≡ undecoded_at place }
{
    DecodedDate {
        answer: Refusal::DateWrong.answer(),
        place: place,
        date: Date {
            year: 0,
            month: 0,
            day: 0,
            hour: 0,
            minute: 0,
            second: 0,
            millisecond: 0,
            designator: 0,
        },
    }
}
