// A run: the header, then turn after turn, then the pad.
ghost use Rattle.turning.specs.Running.{HasStarted, Running, Stopped, Ended};
ghost use Rattle.eqwave.specs.Started.{Comes};

use crate::say;
use eqfile::{Place, Refusal};
use std::io;
use std::io::Read;
use turning::buffers::{PLACES, places};
use turning::output;
use turning::run::Run;
use turning::turn::{Stop, one_turn};

// As many bands as arguments.
const BANDS: i32 = arguments::BANDS as i32;

// Says how many bytes of the data are missing, if any are, after a run that read so many.
fn missing(rt: &impl Eprint, run: Run, read: usize)
    requires { Ended run.plan run.gains.now run.front.now read }
{
    let bytes = run.plan.short(read);
    if 0 < bytes {
        say::line(rt, "short ", &bytes);
    }
}

// Says that a block came with a sample that is no number: nothing of it was handed over.
fn stop(rt: &impl Eprint, run: Run)
    requires { Stopped run.plan run.gains.now run.front.now }
{
    say::refused(rt, Refusal::NotNumber);
}

// The header of a run that has started. It fails where standard output does not take it.
fn put_header(rt: &impl Print, run: Run) -> io::Result<()>
    requires { HasStarted run.plan run.gains.now run.front.now }
{
    let mut header = [0u8; 44];
    let rate = run.plan.rate;
    let frames = run.plan.frames;
    let sides = run.plan.channels.count();
    // the writer takes what a run that has started states
    wave_writer::write(&mut header, rate, 3 * (sides * frames), sides as i32).unwrap();
    output::hand_header(rt, &header, run.plan)
}

// Every turn. Answers how many bytes of data were read. The handles stay beside the run, as the library's own functions take them.
fn turns(
    rt: &impl Print,
    stdin: &mut impl Read,
    run: Run,
    memory: &mut [i32],
) -> Result<usize, Stop>
    requires { Running run.plan run.gains.now run.front.now (record { at = 0; read = 0 }) memory.old }
    ensures { Comes run.entry.plan run.entry.gains.now run.entry.front.now result }
{
    let mut place = Place { at: 0, read: 0 };
    let total = run.plan.fed_in_all();
    while place.at < total {
        place = one_turn(rt, stdin, run, place, memory)?;
    }
    Ok(place.read)
}

// The pad behind the last sample. It fails where standard output does not take it.
fn put_pad(rt: &impl Print, run: Run, read: usize) -> io::Result<()>
    requires { Ended run.plan run.gains.now run.front.now read }
{
    let zero = [0u8; 1];
    let n = run.plan.pad_after();
    output::hand_pad(rt, &zero[..n], run, read)
}

// The whole file. Answers how many bytes of data were read.
fn put_file(rt: &impl Print, stdin: &mut impl Read, run: Run) -> Result<usize, Stop>
    requires { HasStarted run.plan run.gains.now run.front.now }
    ensures { Comes run.entry.plan run.entry.gains.now run.entry.front.now result }
{
    put_header(rt, run)?;
    let mut memory = [0; PLACES];
    let places = places(run.plan.channels);
    let sides = run.plan.channels.count();
    octave::memory::prepare(BANDS, sides as i32, &mut memory[..places]).unwrap();
    let read = turns(rt, stdin, run, &mut memory[..places])?;
    put_pad(rt, run, read)?;
    Ok(read)
}

// A run, and what it says of its end.
pub(crate) fn run(rt: &(impl Print + Eprint), stdin: &mut impl Read, run: Run)
    requires { HasStarted run.plan run.gains.now run.front.now }
{
    match put_file(rt, stdin, run) {
        Ok(read) => missing(rt, run, read),
        Err(Stop::NotANumber) => stop(rt, run),
        Err(Stop::OutputFailed(error)) => say::output_failed(rt, error),
    }
}
