// The numbers of standard input, 32 bits each, the lowest byte first.
ghost use Rattle.std.specs.Prelude.{◌≡◌, pos, ◌-ℤ◌};

use std::io::Read;

// The next number; past the end it is 0.
pub fn word(cases: &mut impl Read) -> u32 {
    let mut bytes = [0u8; 4];
    // What the cases lack stays 0.
    let _ = cases.read_exact(&mut bytes);
    u32::from_le_bytes(bytes)
}

// A place is kept as so much more than the least number of 32 bits.
pub fn place(code: u32) -> i32
    ensures { result ≡ pos code -ℤ pos 2147483648 }
{
    (i64::from(code) - 2147483648) as i32
}
