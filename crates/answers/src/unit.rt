// The unit's numbers, each named once (specs/Unit has the same names).
pub const FEWEST_BANDS: i32 = 2;

pub const MOST_BANDS: i32 = 10;

pub const FEWEST_CHANNELS: i32 = 1;

pub const MOST_CHANNELS: i32 = 2;

pub const LEAST_SAMPLE: i32 = -8388608;

pub const MOST_SAMPLE: i32 = 8388607;

// The ends of a lent place, 32 bits.
pub const LEAST_PLACE: i32 = i32::MIN;

pub const MOST_PLACE: i32 = i32::MAX;

pub const LARGEST_GAIN: i32 = 16384;
// The gain that changes nothing.
pub const UNITY: u32 = 4096;
// The most frames of a block.
pub const BLOCK_LIMIT: usize = 4096;
// The most frames that the program feeds in one block.
pub const TURN_LIMIT: usize = 256;
// .. and their samples, with two channels.
pub const TURN_ROOM: usize = 2 * TURN_LIMIT;
// The most bytes that a header's reader looks at.
pub const FRONT_LENGTH: usize = 4096;
// The most bytes of samples that a header states.
pub const LARGEST_DATA: u32 = 4294967258;
