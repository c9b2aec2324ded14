// An old session in the new form (document 02, wish 2): the old session on standard input; the caller's order and
// settings as the one argument, in the lines of a new session's header (sides in range stand in it too, and count for
// nothing); the new session on standard output, or on a refusal nothing there and the answer's lines on standard error.
// There is room for 32,768 cells. An input may have any length: its first 98,347 bytes decide (`old_front_renews`,
// crates/prints), so no more are read.
#![tactic(auto)]

ghost use Rattle.std.specs.Prelude.{◌≡◌, ◌+◌, ◌^◌, ◌<◌, ◌≤◌, length};
ghost use Rattle.prints.specs.Prints.{buffer_for, large_room, old_buffer};
ghost use Rattle.renew.specs.Renews.{RenewProgramOf};
ghost use Rattle.airway_renew.specs.RenewInputs.{RenewedFrom};

use answer_print::show;
use input_front::front_of;
use method::{Answer, Order, Settings};
use renew::renew;
use session_header::read_header;
use session_write::Written;
use std::env::Env;
use std::io;
use std::io::{Read, Write};

// How many cells there is room for: as many as the greatest cast has, by which all that is lent is measured.
const LIMIT: usize = 32768;

const BUFFER: usize = 3 * LIMIT + 43;

const SESSION: usize = 5 * LIMIT + 95;

// The session whose front is handed in is put in the new form at the front of the output; its answer and its length
// come back.
fn answer(
    order: Order,
    settings: Settings,
    front: &[u8],
    values: &mut [i32],
    output: &mut [u8],
) -> Written
    requires { (length values.old ≡ large_room) × (buffer_for large_room ≤ length output.old) }
    ensures { RenewProgramOf order settings front.now output.old result output.new }
{
    renew(order, settings, front, values, output)
}

// The same, of the front that is read from an input into a buffer that holds just as many bytes as decide.
fn answer_from<R: Read>(
    from: &mut R,
    order: Order,
    settings: Settings,
    buffer: &mut [u8],
    values: &mut [i32],
    output: &mut [u8],
) -> Written
    requires buffer_len { length buffer.old ≡ old_buffer }
    requires roomy { (length values.old ≡ large_room) × (buffer_for large_room ≤ length output.old) }
    ensures { RenewedFrom order settings (R.remaining from.old) (R.remaining from.new) output.old result output.new }
{
    let front = front_of(from, buffer);
    answer(order, settings, front, values, output)
}

// The lines of a refusal are written, to standard error as it is called.
fn refuse<E: Write>(errors: &mut E, found: Answer) -> io::Result<()> {
    let mut text = [0u8; 160];
    let n = show(found, &[], &mut text);
    errors.write_all(&text[..n])
}

// A session is read from an input, and written in the new form to an output, or the lines of its refusal to errors, in
// arrays of its own.
// Kept: beside `answer_input::run`, which has one output and no order or settings from the command line.
fn run<R: Read, W: Write, E: Write, const BUFFER: usize, const CELLS: usize, const SESSION: usize>(
    from: &mut R,
    to: &mut W,
    errors: &mut E,
    order: Order,
    settings: Settings,
) -> io::Result<()>
    requires input_len { (BUFFER ≡ old_buffer) × (CELLS ≡ large_room) }
    requires session_len { buffer_for large_room ≤ SESSION }
    requires addressable { BUFFER + CELLS + SESSION < 2 ^ 32 }
{
    let mut buffer = [0u8; BUFFER];
    let mut values = [0i32; CELLS];
    let mut output = [0u8; SESSION];
    let written = answer_from(from, order, settings, &mut buffer, &mut values, &mut output);
    let found = written.answer;
    let count = written.count;
    // Kept: `Answer` is the one that C has too, by whose number 0 nothing is at fault.
    if found.number == 0 {
        return to.write_all(&output[..count]);
    }
    refuse(errors, found)
}

fn main(rt: HostRuntime) -> io::Result<()> {
    let mut lines = [0u8; 95];
    let n = rt.arg(1, &mut lines).unwrap_or(0);
    match read_header(&lines[..n]) {
        Err(_) => rt
            .stderr()
            .write_all(b"the argument is no header of a session\n"),
        Ok(h) => run::<_, _, _, BUFFER, LIMIT, SESSION>(
            &mut rt.stdin(),
            &mut rt.stdout(),
            &mut rt.stderr(),
            h.order,
            h.settings,
        ),
    }
}
