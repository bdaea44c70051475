// "Coded digits: digit n is the four bits n+1; the high four bits are the earlier digit."
ghost use Rattle.std.specs.Prelude.{◌≡◌, ◌≤◌, ◌<◌, length};
ghost use Rattle.meaning.specs.Bytes.{is_digit, digit_of, two_digits};
ghost use Rattle.meaning.specs.Plain.{pair_byte};
ghost use Rattle.values.specs.Digits.{PairAt};

// Whether four bits code a digit.
pub fn is_digit(bits: u32) -> bool
    ensures { result ≡ is_digit bits }
{
    (1..=10).contains(&bits)
}

// The digit of four bits, 0 where they are none.
pub fn digit(bits: u32) -> u32
    ensures { result ≡ digit_of bits }
{
    bits.saturating_sub(1)
}

// The number of the two digits of a byte.
pub fn two_digits(b: u32) -> u32
    requires { b < 256 }
    ensures { result ≡ two_digits b }
{
    10 * digit(b / 16) + digit(b % 16)
}

// The byte that codes the two digits of a number up to 99.
pub fn pair_byte(x: u32) -> u8
    requires { x ≤ 99 }
    ensures { result ≡ pair_byte x }
{
    (16 * (x / 10 + 1) + (x % 10 + 1)) as u8
}

// The number of the two digits of byte j.
pub fn pair_at(bytes: &[u8], j: usize) -> u32
    requires { j < length bytes.now }
    ensures { PairAt bytes.now j result }
{
    two_digits(u32::from(bytes[j]))
}
