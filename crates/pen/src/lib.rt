// The pen: each function writes at a place of `out` and answers the place behind what it wrote.
#![tactic(auto)]

ghost use Rattle.std.specs.Prelude.{◌≡◌, [], ◌∷◌, ◌++◌, ◌+◌, ◌*◌, ◌≤◌, ◌<◌, ◌/◌, ◌%◌, length};
ghost use Rattle.meaning.specs.Listing.{decimal, digit_character, hex_character, hex_of};
ghost use Rattle.pen.specs.Wrote.{Wrote};

// "fields are parted by tabs, each line ends with byte 0A"
pub const TAB: u8 = 0x09;

pub const NEWLINE: u8 = 0x0a;

// Writes one byte.
pub fn put(out: &mut [u8], at: usize, b: u8) -> usize
    requires { at < length out.old }
    ensures { Wrote out.old out.new at (b ∷ []) result }
{
    out[at] = b;
    at + 1
}

// Writes a number: "Numbers are decimal". The digits before the last one are those of a tenth.
pub fn number(out: &mut [u8], at: usize, value: u64) -> usize
    requires { at + length (decimal value) ≤ length out.old }
    ensures { Wrote out.old out.new at (decimal value) result }
{
    if value < 10 {
        return put(out, at, digit(value));
    }
    let end = number(out, at, value / 10);
    put(out, end, digit(value % 10))
}

// The character of a decimal digit.
fn digit(d: u64) -> u8
    requires { d < 10 }
    ensures { result ≡ digit_character d }
{
    (48 + d) as u8
}

// Writes a number and the byte that closes its field.
pub fn field(out: &mut [u8], at: usize, value: u64, closing: u8) -> usize
    requires { at + length (decimal value) < length out.old }
    ensures { Wrote out.old out.new at (decimal value ++ (closing ∷ [])) result }
{
    let end = number(out, at, value);
    put(out, end, closing)
}

// Writes bytes "in lower-case hex": two characters a byte.
pub fn hex(out: &mut [u8], at: usize, bytes: &[u8]) -> usize
    requires { at + 2 * length bytes.now ≤ length out.old }
    ensures { Wrote out.old out.new at (hex_of bytes.now) result }
{
    let mut end = at;
    for b in bytes {
        end = pair(out, end, *b);
    }
    end
}

// Writes the two characters of one byte.
fn pair(out: &mut [u8], at: usize, b: u8) -> usize
    requires { at + 2 ≤ length out.old }
    ensures { Wrote out.old out.new at (hex_character (b / 16) ∷ hex_character (b % 16) ∷ []) result }
{
    let low = put(out, at, character(b / 16));
    put(out, low, character(b % 16))
}

// The character of a hex digit.
fn character(d: u8) -> u8
    requires { d < 16 }
    ensures { result ≡ hex_character d }
{
    if d < 10 {
        return 0x30 + d;
    }
    0x57 + d
}
