// The program `eqwave`: it reads, calls and writes. What it decides, `eqfile` decides.
#![tactic(auto)]

ghost use Rattle.eqwave.specs.Started.{Before};

use answers::unit::FRONT_LENGTH;
use std::io::Read;
use turning::run::Run;

mod run;
mod say;

fn main(rt: HostRuntime) {
    let mut gains = [0i32; arguments::BANDS];
    let mut front = [0u8; FRONT_LENGTH];
    let arguments = arguments::take(&rt, &mut gains);
    let wanted = arguments::front_wanted(arguments);
    let mut stdin = rt.stdin();
    let got = turning::input::fill(&mut stdin, &mut front[..wanted]);
    begin(&rt, &mut stdin, arguments, &front[..got], &gains);
}

// A run, or the number that it is refused with.
fn begin(
    rt: &(impl Print + Eprint),
    stdin: &mut impl Read,
    arguments: Option<usize>,
    front: &[u8],
    gains: &[i32],
)
    requires { Before arguments front.now gains.now }
{
    match eqfile::begin(arguments, front) {
        Ok(plan) => run::run(rt, stdin, Run { plan, gains, front }),
        Err(refusal) => say::refused(rt, refusal),
    }
}
