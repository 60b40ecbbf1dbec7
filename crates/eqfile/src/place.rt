// Where a run stands.

// The frames fed and the data bytes read so far.
#[derive(Clone, Copy)]
pub struct Place {
    pub at: usize,
    pub read: usize,
}
