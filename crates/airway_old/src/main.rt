// An old session answered directly (document 02, wish 2): the session on standard input, the caller's settings as the
// one argument, in the lines of a new session's header (sides in range and an order stand in it too, and count for
// nothing); the answer on standard output, as document 01's program prints it, with rooms for 32,768 cells.
// An input may have any length: its first 98,347 bytes decide what is printed (`old_front_prints`, crates/prints), so
// no more are read.
#![tactic(auto)]

ghost use Rattle.std.specs.Prelude.{◌≡◌, ◌+◌, ◌^◌, ◌<◌, length};
ghost use Rattle.prints.specs.Prints.{large_room, old_buffer};
ghost use Rattle.answer_session.specs.Responds.{Roomy, RoomFor};
ghost use Rattle.answer_old_session.specs.OldResponds.{OldProgramOf};
ghost use Rattle.airway_old.specs.OldInputs.{OldAnswerOf};

use answer_old_session::respond_old;
use answer_session::Lent;
use input_front::front_of;
use method::Settings;
use session_header::read_header;
use std::env::Env;
use std::io;
use std::io::{Read, Write};

// How many cells there is room for: as many as the greatest cast has, by which all that is lent is measured.
const LIMIT: usize = 32768;

const BUFFER: usize = 3 * LIMIT + 43;

const BYTES: usize = 2 * LIMIT + 16;

const FLOATS: usize = 8 * LIMIT + 64;

const WORDS: usize = 2 * LIMIT;

const PRINT: usize = 26 * LIMIT + 160;

// The answer to the session whose front is handed in is put at the front of the output, and its length comes back.
fn answer(
    settings: Settings,
    front: &[u8],
    values: &mut [i32],
    lent: Lent<'_>,
    output: &mut [u8],
) -> usize
    requires values_len { length values.old ≡ large_room }
    requires roomy { RoomFor large_room (length values.old) lent (length output.old) }
    ensures { OldProgramOf settings front.now output.old output.new result }
{
    respond_old(settings, front, values, lent, output)
}

// The same, of the front that is read from an input into a buffer that holds just as many bytes as decide.
fn answer_from<R: Read>(
    from: &mut R,
    settings: Settings,
    buffer: &mut [u8],
    values: &mut [i32],
    lent: Lent<'_>,
    output: &mut [u8],
) -> usize
    requires buffer_len { length buffer.old ≡ old_buffer }
    requires values_len { length values.old ≡ large_room }
    requires roomy { RoomFor large_room (length values.old) lent (length output.old) }
    ensures { OldAnswerOf settings (R.remaining from.old) (R.remaining from.new) output.old output.new result }
{
    let front = front_of(from, buffer);
    answer(settings, front, values, lent, output)
}

// A session is read from an input, and its answer written to an output, in arrays of its own.
// Kept: beside `answer_input::run`, whose answer takes no settings: those of the old form come from the command line.
fn run<
    R: Read,
    W: Write,
    const BUFFER: usize,
    const CELLS: usize,
    const BYTES: usize,
    const FLOATS: usize,
    const WORDS: usize,
    const PRINT: usize,
>(from: &mut R, to: &mut W, settings: Settings) -> io::Result<()>
    requires input_len { (BUFFER ≡ old_buffer) × (CELLS ≡ large_room) }
    requires roomy { Roomy large_room CELLS CELLS BYTES FLOATS WORDS PRINT }
    requires addressable { BUFFER + CELLS + BYTES + FLOATS + WORDS + PRINT < 2 ^ 32 }
{
    let mut buffer = [0u8; BUFFER];
    let mut values = [0i32; CELLS];
    let mut pressures = [0i64; CELLS];
    let mut bytes = [0u8; BYTES];
    let mut floats = [0.0f64; FLOATS];
    let mut words = [0u32; WORDS];
    let mut output = [0u8; PRINT];
    let lent = Lent {
        pressures: &mut pressures,
        bytes: &mut bytes,
        floats: &mut floats,
        words: &mut words,
    };
    let count = answer_from(from, settings, &mut buffer, &mut values, lent, &mut output);
    to.write_all(&output[..count])
}

fn main(rt: HostRuntime) -> io::Result<()> {
    let mut lines = [0u8; 95];
    let n = rt.arg(1, &mut lines).unwrap_or(0);
    match read_header(&lines[..n]) {
        Err(_) => rt
            .stderr()
            .write_all(b"the argument is no header of a session\n"),
        Ok(h) => run::<_, _, BUFFER, LIMIT, BYTES, FLOATS, WORDS, PRINT>(
            &mut rt.stdin(),
            &mut rt.stdout(),
            h.settings,
        ),
    }
}
