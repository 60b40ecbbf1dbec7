// Frames of one or two channels, counted without a division by a number that is not known.
ghost use Rattle.std.specs.Prelude.{◌≡◌, ◌≤◌, ◌/◌, ◌%◌, eqb};

// How many frames so many numbers are; what is left over is none.
pub fn frames_in(length: usize, channels: usize) -> usize
    requires { (1 ≤ channels) × (channels ≤ 2) }
    ensures { result ≡ length / channels }
{
    if channels == 1 { length } else { length / 2 }
}

// Whether nothing is left over.
pub fn whole_frames(length: usize, channels: usize) -> bool
    requires { (1 ≤ channels) × (channels ≤ 2) }
    ensures { result ≡ eqb (length % channels) 0 }
{
    channels == 1 || length % 2 == 0
}
