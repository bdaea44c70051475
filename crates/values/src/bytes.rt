// Two bytes and four as numbers, high first.
ghost use Rattle.std.specs.Prelude.{◌≡◌, ◌+◌, ◌*◌, ◌≤◌, ◌<◌, length, get_or};

// The number of the two bytes from a place on.
pub fn two_bytes(s: &[u8], at: usize) -> usize
    requires { at + 2 ≤ length s.now }
    ensures { (result ≡ 256 * get_or s.now at 0 + get_or s.now (at + 1) 0) × (result < 65536) }
{
    usize::from(u16::from_be_bytes([s[at], s[at + 1]]))
}

// The number of the four bytes from a place on.
pub fn four_bytes(s: &[u8], at: usize) -> usize
    requires { at + 4 ≤ length s.now }
    ensures { (result ≡ 65536 * (256 * get_or s.now at 0 + get_or s.now (at + 1) 0) + (256 * get_or s.now (at + 2) 0 + get_or s.now (at + 2 + 1) 0)) × (result < 4294967296) }
{
    u32::from_be_bytes([s[at], s[at + 1], s[at + 2], s[at + 3]]) as usize
}
