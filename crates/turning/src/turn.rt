// One turn of a run: its bytes are read, its block is equalised, and what that stores is handed over.
ghost use Rattle.std.specs.Prelude.{◌≡◌};
ghost use Rattle.turning.specs.declared.turn.Stop.TheVariants.{OutputFailed};
ghost use Rattle.turning.specs.Running.{Running, Arrived, PutDone, Further};

use crate::buffers::BYTES;
use crate::run::Run;
use crate::{input, output};
use answers::unit::TURN_ROOM;
use eqfile::{Place, Turn};
use std::io;
use std::io::Read;

// Why a run stops at a turn.
#[derive(Drop)]
pub enum Stop {
    // A sample of its block is no number: nothing of the block was handed over.
    NotANumber,
    // Standard output took no more.
    OutputFailed(io::Error),
}

impl From<io::Error> for Stop {
    ghost from_gives = { λ error stop. stop ≡ OutputFailed error };

    fn from(error: io::Error) -> Stop {
        Stop::OutputFailed(error)
    }
}

// Equalises the block of a turn for which some bytes came, and hands over what it stores, if each sample is a number.
fn put(
    rt: &impl Print,
    run: Run,
    place: Place,
    memory: &mut [i32],
    turn: Turn,
    piece: &[u8],
) -> Result<(), Stop>
    requires { Arrived run.plan run.gains.now run.front.now place memory.old turn piece.now }
    ensures { PutDone run.entry.plan run.entry.gains.now run.entry.front.now place memory.old piece.now result memory.new }
{
    let mut input = [0; TURN_ROOM];
    let mut stored = [0; BYTES];
    let sides = run.plan.channels.count() as usize;
    let fed = sides * turn.fed;
    let skipped = sides * turn.skipped;
    let written = turn.written;
    eqfile::samples_from(piece, run.plan.format, &mut input[..fed]).map_err(|_| Stop::NotANumber)?;
    // no block of a run is refused
    let n = blocks::equalise(
        memory,
        run.gains,
        &input[..fed],
        skipped,
        &mut stored[..written],
    )
    .unwrap();
    output::hand(rt, &stored[..n], run)?;
    Ok(())
}

// The next turn of a run, and where the run stands after it.
pub fn one_turn(
    rt: &impl Print,
    stdin: &mut impl Read,
    run: Run,
    place: Place,
    memory: &mut [i32],
) -> Result<Place, Stop>
    requires { Running run.plan run.gains.now run.front.now place memory.old }
    ensures { Further run.entry.plan run.entry.gains.now run.entry.front.now place result memory.new }
{
    let turn = run.plan.next_turn(place);
    let mut bytes = [0; BYTES];
    let wanted = turn.wanted;
    let fed = turn.fed;
    let start = run.plan.start + place.read;
    let got = input::fetch(stdin, run.front, start, &mut bytes[..wanted]);
    put(rt, run, place, memory, turn, &bytes[..got])?;
    Ok(Place {
        at: place.at + fed,
        read: place.read + got,
    })
}
