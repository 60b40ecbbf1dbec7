// The layout of the line memory: the counts, the position, then the left lines from line M down to line 2, then the right ones.
// Here is the head: where the counts and the position stand, and how many places come before the lines.
// Rule 5.2 fixes these places: a C caller holds such a memory, so they are places of a slice and no fields.
pub(crate) const COUNT: usize = 0;

pub(crate) const CHANNELS: usize = 1;

pub(crate) const POSITION: usize = 2;

pub(crate) const HEAD: usize = 3;
