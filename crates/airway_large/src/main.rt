// The program for the greatest casts: one session on standard input, its answer on standard output, as document 01's
// program prints it, with rooms for 32,768 cells.
// An input may have any length: its first 163,935 bytes decide what is printed (`front_is_enough_for`, crates/prints),
// so no more are read.
#![tactic(auto)]

ghost use Rattle.prints.specs.Prints.{large_room};

use answer_input::{Limit, run};
use std::io;

// How many cells there is room for: as many as the greatest cast has, by which all that is lent is measured.
const LIMIT: usize = 32768;

const BUFFER: usize = 5 * LIMIT + 95;

const BYTES: usize = 2 * LIMIT + 16;

const FLOATS: usize = 8 * LIMIT + 64;

const WORDS: usize = 2 * LIMIT;

const PRINT: usize = 26 * LIMIT + 160;

// The program for the greatest casts, by its limit.
struct Large;

impl Limit for Large {
    ghost LIMIT = { large_room };

    const LIMIT: usize = LIMIT;
}

fn main(rt: HostRuntime) -> io::Result<()> {
    run::<Large, _, _, BUFFER, LIMIT, BYTES, FLOATS, WORDS, PRINT>(
        &mut rt.stdin(),
        &mut rt.stdout(),
    )
}
