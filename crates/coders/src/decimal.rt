// The decimal digits of a number, and the bytes that code them.
ghost use Rattle.std.specs.Prelude.{◌≡◌, ◌-◌, ◌*◌, ◌%◌, ◌≤◌};
ghost use Rattle.meaning.specs.Bytes.{number_most};
ghost use Rattle.coders.specs.Decimal.{HasDigits, quotient, packed_byte};

// Takes a number that a payload length may be. Answers how many decimal digits it has.
pub fn digit_count(value: u64) -> usize
    requires { value ≤ number_most }
    ensures { (1 ≤ result) × (result ≤ 10) × HasDigits result value }
{
    value.max(1).ilog10() as usize + 1
}

// Byte j of the n digits of `value`, coded: two of them, or the last one and four zero bits, or the 00 behind an even count.
pub fn coded_byte(value: u64, n: usize, j: usize) -> u8
    requires { (n ≤ 10) × (j ≤ 5) }
    ensures { result ≡ packed_byte value (n - 2 * j) }
{
    let left = n.saturating_sub(2 * j);
    match left {
        0 => 0,
        1 => (16 * (digit_at(value, 0) + 1)) as u8,
        _ => (16 * (digit_at(value, left - 1) + 1) + (digit_at(value, left - 2) + 1)) as u8,
    }
}

// The decimal digit of `value` that has `behind` digits after it.
fn digit_at(value: u64, behind: usize) -> u64
    ensures { result ≡ quotient behind value % 10 }
{
    let mut rest = value;
    for _ in 0..behind {
        rest /= 10;
    }
    rest % 10
}
