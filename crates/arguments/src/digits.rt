// The digits of an argument.
ghost use Rattle.std.specs.Prelude.{◌≡◌};
ghost use Rattle.arguments.specs.Argument.{up_to24, digits_of};

// The number of two digits, if it is at most 24.
fn up_to_24(tens: u8, ones: u8) -> Option<u8>
    ensures { result ≡ up_to24 tens ones }
{
    if !tens.is_ascii_digit() || !ones.is_ascii_digit() {
        return None;
    }
    let n = 10 * (tens - b'0') + (ones - b'0');
    (n <= 24).then_some(n)
}

// One digit or two: one digit d is 0d.
pub(crate) fn digits_of(s: &[u8]) -> Option<u8>
    ensures { result ≡ digits_of s.now }
{
    match s {
        [ones] => up_to_24(b'0', *ones),
        [tens, ones] => up_to_24(*tens, *ones),
        _ => None,
    }
}
