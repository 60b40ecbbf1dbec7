// What standard output is handed. No other file names it. Each of the three requires other bytes, so that they are no one function: the
// header of a plan, what the block of a turn stores, the pad of a run that has ended.
ghost use Rattle.std.specs.Prelude.{◌≡◌, ◌*◌};
ghost use Rattle.samples.specs.Channels.{count_of};
ghost use Rattle.chunks.specs.Walk.{pad};
ghost use Rattle.wave_writer.specs.Header.{header};
ghost use Rattle.turning.specs.Running.{Due, Ended};

use crate::run::Run;
use eqfile::Plan;
use std::io;

// The header of the plan's frames. It fails where standard output does not take it.
pub fn hand_header(rt: &impl Print, bytes: &[u8], plan: Plan) -> io::Result<()>
    requires { bytes.now ≡ header plan.rate (3 * (count_of plan.channels * plan.frames)) (count_of plan.channels) }
{
    rt.write_all(bytes)
}

// What a turn's block stored. It fails where standard output does not take it.
pub fn hand(rt: &impl Print, bytes: &[u8], run: Run) -> io::Result<()>
    requires { Due run.plan run.gains.now run.front.now bytes.now }
{
    rt.write_all(bytes)
}

// The pad of a run that has ended: a zero byte behind odd data, nothing behind even data. It fails where standard output does not take it.
// `Ended` stays a clause: it speaks of `read` too, which no run has before its end.
pub fn hand_pad(rt: &impl Print, bytes: &[u8], run: Run, read: usize) -> io::Result<()>
    requires ended { Ended run.plan run.gains.now run.front.now read }
    requires bytes_value { bytes.now ≡ pad (3 * (count_of run.plan.channels * run.plan.frames)) }
{
    rt.write_all(bytes)
}
