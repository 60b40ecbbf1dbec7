// The data bytes of a block to its samples.
ghost use Rattle.answers.specs.Checks.{Done};
ghost use Rattle.eqfile.specs.Data.{taken_from};

use crate::refusal::Refusal;
use samples::{Format, bytes_to_samples};

// The samples of a block: each that is wholly there, then zeros. If one that is there is no number, nothing is changed.
pub fn samples_from(bytes: &[u8], format: Format, samples: &mut [i32]) -> Result<(), Refusal>
    ensures { Done (taken_from bytes.now format samples.old) result samples.new }
{
    let size = format.bytes() as usize;
    let whole = (bytes.len() / size).min(samples.len());
    let there = &bytes[..whole * size];
    bytes_to_samples(there, format, &mut samples[..whole]).map_err(|_| Refusal::NotNumber)?;
    samples[whole..].fill(0);
    Ok(())
}
