// What a run goes by.
use eqfile::Plan;

// The plan of a run, the gains of its arguments, and the front of its file.
// That it has started stays a clause: `Running` and `Ended` say so of some rate for the theorems, and an invariant here would ask more of who hands on a block.
#[derive(Clone, Copy)]
pub struct Run<'a> {
    pub plan: Plan,
    pub gains: &'a [i32],
    pub front: &'a [u8],
}
