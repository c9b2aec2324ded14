// The answer to the session at an input's front, for the programs with a fixed room: read into a lent buffer, and
// answered in lent rooms.
// An input may have any length: as many of its bytes as the buffer holds decide what is printed (`front_is_enough_for`,
// crates/prints), so no more are read.
#![tactic(auto)]

ghost use Rattle.std.specs.Prelude.{◌≡◌, ℕ, ◌+◌, ◌^◌, ◌<◌, length, OnOk};
ghost use Rattle.prints.specs.Prints.{buffer_for};
ghost use Rattle.answer_session.specs.Responds.{Roomy, RoomFor, FrontOf};
ghost use Rattle.answer_input.specs.Inputs.{AnswerOf, RunOf};

use answer_session::{Lent, respond};
use input_front::front_of;
use std::io;
use std::io::{Read, Write};

// How many cells a program has room for, by which all that it lends is measured: the number, and what the meaning
// calls it.
pub trait Limit {
    ghost LIMIT: { ℕ };

    const LIMIT: usize;
}

// The answer to the session whose front is handed in is put at the front of the output, and its length comes back.
#[tactic(auto, using(answer_session::proofs::FrontLaws::front_put))]
pub fn answer<P: Limit>(
    front: &[u8],
    values: &mut [i32],
    lent: Lent<'_>,
    output: &mut [u8],
) -> usize
    requires { RoomFor P.LIMIT (length values.old) lent (length output.old) }
    ensures { FrontOf P.LIMIT front.now output.old output.new result }
{
    respond(front, P::LIMIT, values, lent, output)
}

// The same, of the front that is read from an input.
pub fn answer_from<P: Limit, R: Read>(
    from: &mut R,
    buffer: &mut [u8],
    values: &mut [i32],
    lent: Lent<'_>,
    output: &mut [u8],
) -> usize
    requires buffer_len { length buffer.old ≡ buffer_for P.LIMIT }
    requires roomy { RoomFor P.LIMIT (length values.old) lent (length output.old) }
    ensures { AnswerOf P.LIMIT (R.remaining from.old) (R.remaining from.new) output.old output.new result }
{
    let front = front_of(from, buffer);
    answer::<P>(front, values, lent, output)
}

// A program's whole run, in arrays of its own: a session is read from an input, and its answer written to an output.
pub fn run<
    P: Limit,
    R: Read,
    W: Write,
    const BUFFER: usize,
    const CELLS: usize,
    const BYTES: usize,
    const FLOATS: usize,
    const WORDS: usize,
    const PRINT: usize,
>(from: &mut R, to: &mut W) -> io::Result<()>
    requires buffer_len { BUFFER ≡ buffer_for P.LIMIT }
    requires roomy { Roomy P.LIMIT CELLS CELLS BYTES FLOATS WORDS PRINT }
    requires addressable { BUFFER + CELLS + BYTES + FLOATS + WORDS + PRINT < 2 ^ 32 }
    ensures { OnOk result (RunOf P.LIMIT (R.remaining from.old) (R.remaining from.new) (W.contents to.old) (W.contents to.new)) }
{
    let mut buffer = [0u8; BUFFER];
    let mut values = [0i32; CELLS];
    let mut pressures = [0i64; CELLS];
    let mut bytes = [0u8; BYTES];
    let mut floats = [0.0f64; FLOATS];
    let mut words = [0u32; WORDS];
    let mut output = [0u8; PRINT];
    let lent = Lent {
        pressures: &mut pressures,
        bytes: &mut bytes,
        floats: &mut floats,
        words: &mut words,
    };
    let count = answer_from::<P, R>(from, &mut buffer, &mut values, lent, &mut output);
    to.write_all(&output[..count])
}
