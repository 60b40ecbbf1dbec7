// How a run starts: the checks in their order.
ghost use Rattle.std.specs.Prelude.{◌≡◌};
ghost use Rattle.eqfile.specs.Start.{plan_for, start_of, start_answer};

use crate::plan::Plan;
use crate::refusal::Refusal;
use answers::unit::LARGEST_DATA;
use arguments::BANDS;
use wave::Found;
use wave_values::frame_size;

// The most samples whose three bytes each a header can state.
const MOST: u32 = LARGEST_DATA / 3;

// What a header tells, if its frames can be written.
fn planned(found: Found) -> Result<Plan, Refusal>
    ensures { start_answer result ≡ plan_for found }
{
    let frames = found.size / frame_size(found.channels, found.format);
    if MOST / found.channels.count() < frames {
        return Err(Refusal::TooLong);
    }
    Ok(Plan {
        rate: found.rate,
        format: found.format,
        channels: found.channels,
        frames,
        start: found.start,
    })
}

// The arguments, then the header, then the length to be written.
#[tactic(auto, unfolding(crate::specs::Start::start_of, crate::specs::Start::plan_of))]
pub fn begin(arguments: Option<usize>, front: &[u8]) -> Result<Plan, Refusal>
    ensures { start_answer result ≡ start_of arguments front.now }
{
    if arguments != Some(BANDS) {
        return Err(Refusal::Arguments);
    }
    planned(wave::read(front)?)
}
