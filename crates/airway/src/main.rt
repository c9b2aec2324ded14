// The program (document 01, "The program"): one session on standard input, its answer on standard output, with rooms
// for 1,000 cells.
// An input may have any length: its first 5,095 bytes decide what is printed (`front_is_enough`, crates/prints), so no
// more are read.
#![tactic(auto)]

ghost use Rattle.method.specs.Program.{program_room};

use answer_input::{Limit, run};
use std::io;

// How many cells there is room for: `method`'s program_room, by which all that is lent is measured.
const LIMIT: usize = 1000;

const BUFFER: usize = 5 * LIMIT + 95;

const BYTES: usize = 2 * LIMIT + 16;

const FLOATS: usize = 8 * LIMIT + 64;

const WORDS: usize = 2 * LIMIT;

const PRINT: usize = 26 * LIMIT + 160;

// Document 01's program, by its limit.
struct Program;

impl Limit for Program {
    ghost LIMIT = { program_room };

    const LIMIT: usize = LIMIT;
}

fn main(rt: HostRuntime) -> io::Result<()> {
    run::<Program, _, _, BUFFER, LIMIT, BYTES, FLOATS, WORDS, PRINT>(
        &mut rt.stdin(),
        &mut rt.stdout(),
    )
}
