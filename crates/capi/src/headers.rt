// The WAVE header.
ghost use Rattle.std.specs.Prelude.{◌≡◌};
ghost use Rattle.wave_writer.specs.Header.{write_of, write_answer};
ghost use Rattle.wave.specs.Walk.{read_of, found_answer};
ghost use Rattle.encoding.specs.Answers.{of_count, Returned};
ghost use Rattle.encoding.specs.Encode.{encode};
ghost use Rattle.parts.specs.Found.{of_found};
ghost use Rattle.capi.specs.Found.{found_after};
ghost use Rattle.capi.specs.Private.{StartFits};

use encoding::code::count;
use wave::{Found, Refusal};

// What was found goes to the five places; a refusal stores nothing. They are one pointer in C, so no struct.
fn store(answer: Result<Found, Refusal>, found: &mut [u32; 5])
    requires { StartFits (found_answer answer) }
    ensures { found.new ≡ found_after (found_answer answer) found.old }
{
    if let Ok(read) = answer {
        *found = [
            read.rate,
            read.format.bits(),
            read.size,
            read.start as u32,
            read.channels.count(),
        ];
    }
}

#[unsafe(no_mangle)]
pub extern "C" fn oeq_wave_read(front: &[u8], found: &mut [u32; 5]) -> i64
    ensures value { result ≡ encode (of_count (of_found (read_of front.now))) }
    ensures found_after { found.new ≡ found_after (read_of front.now) found.old }
{
    let answer = wave::read(front);
    store(answer, found);
    count(parts::headers::found(answer))
}

#[unsafe(no_mangle)]
pub extern "C" fn oeq_wave_write(buffer: &mut [u8], rate: u32, size: u32, channels: i32) -> i64
    ensures { Returned (λ a. of_count (write_answer a)) (write_of buffer.old rate size channels) result buffer.new }
{
    count(wave_writer::write(buffer, rate, size, channels))
}
