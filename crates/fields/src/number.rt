// Numbers of one to four bytes at a place, the lowest byte first or the highest: each order turns bytes to lowest first and back.
ghost use Rattle.std.specs.Prelude.{◌≡◌, ◌+◌, ◌^◌, ◌≤◌, ◌<◌, length};
ghost use Rattle.std.proofs.lemmas.List.Edits.{sets};
ghost use Rattle.fields.specs.Bytes.{Order, lowest, highest, ordered, field, row};

// Which byte of a number stands first.
pub trait ByteOrder {
    ghost order: { Order };

    fn turn(bytes: &mut [u8])
        ensures { bytes.new ≡ ordered order bytes.old };
}

pub struct Lowest;

// AIFF's order: no reader here calls it yet, and its proofs stand.
pub struct Highest;

impl ByteOrder for Lowest {
    ghost order = { lowest };

    fn turn(_bytes: &mut [u8]) {}
}

impl ByteOrder for Highest {
    ghost order = { highest };

    fn turn(bytes: &mut [u8]) {
        bytes.reverse();
    }
}

// The number in the N bytes at a place.
pub fn number_at<O: ByteOrder, const N: usize>(s: &[u8], place: usize) -> u32
    requires { (place + N ≤ length s.now) × (N ≤ 4) }
    ensures { (result ≡ field O.order s.now place N) × (result < 256 ^ N) }
{
    let mut row = [0; 4];
    let front = &mut row[..N];
    // By places: of what `iter_mut().zip(..)` wrote the library has no fact, and over `copy_from_slice` a read takes eight times as long.
    for (i, byte) in front.iter_mut().enumerate() {
        *byte = s[place + i];
    }
    O::turn(front);
    u32::from_le_bytes(row)
}

// Writes the N bytes of a number at a place. By its place in the buffer, as the headers are written (`sets`): a slice from there on would be cut anew for each.
pub fn put_number<O: ByteOrder, const N: usize>(buffer: &mut [u8], at: usize, n: u32)
    requires { (at + N ≤ length buffer.old) × ((N ≤ 4) × (n < 256 ^ N)) }
    ensures { buffer.new ≡ sets buffer.old at (row O.order N n) }
{
    let mut row = n.to_le_bytes();
    O::turn(&mut row[..N]);
    buffer[at..at + N].copy_from_slice(&row[..N]);
}
