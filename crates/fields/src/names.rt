// Names of four bytes at a place.
ghost use Rattle.std.specs.Prelude.{◌≡◌, ◌+◌, ◌≤◌, length, take, drop};
ghost use Rattle.std.proofs.lemmas.List.Edits.{sets};
ghost use Rattle.fields.specs.Bytes.{same};

use crate::number::{Lowest, number_at};

// Whether the four bytes at a place read a name. As one number they take one comparison: by the library's `==` of slices a walk over chunks takes half as many instructions again.
pub fn named(s: &[u8], place: usize, name: &[u8; 4]) -> bool
    requires { place + 4 ≤ length s.now }
    ensures { result ≡ same (take 4 (drop place s.now)) name.now }
{
    number_at::<Lowest, 4>(s, place) == u32::from_le_bytes(*name)
}

pub fn put_name(buffer: &mut [u8], at: usize, name: &[u8; 4])
    requires { at + 4 ≤ length buffer.old }
    ensures { buffer.new ≡ sets buffer.old at name.now }
{
    buffer[at..at + 4].copy_from_slice(name);
}
