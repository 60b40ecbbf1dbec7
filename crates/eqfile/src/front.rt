// The data bytes that came with the front.
ghost use Rattle.std.specs.Prelude.{◌≡◌};
ghost use Rattle.eqfile.specs.Front.{carry_of};

// Puts the data that the front holds from `from` on at the start of the block's bytes, and answers how many there are.
#[tactic(auto, unfolding(crate::specs::Front::carry_of))]
pub fn carry(front: &[u8], from: usize, bytes: &mut [u8]) -> usize
    ensures { (result, bytes.new) ≡ carry_of front.now from bytes.old }
{
    let there = front.get(from..).unwrap_or(&[]);
    let n = there.len().min(bytes.len());
    bytes[..n].copy_from_slice(&there[..n]);
    n
}
