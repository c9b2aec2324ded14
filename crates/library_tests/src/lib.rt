// What the comparisons call through C and no user needs: the cycle, the walks, ticks and an old session's label part by
// themselves. Linked into compare/harness.c alone.
#![tactic(auto)]

ghost use Rattle.std.specs.Prelude.{◌≡◌, ◌-◌, length};
ghost use Rattle.method.specs.Cast.{cells};
ghost use Rattle.method.specs.Cycle.{cycle};
ghost use Rattle.theory.specs.Sides.{Fit};
ghost use Rattle.levels.specs.Levels.{base};
ghost use Rattle.smooth.specs.Fields.{u_of, b_of};
ghost use Rattle.cycle.specs.Strokes.{Ended};
ghost use Rattle.cycle.specs.Rooms.{Ready, Cycled, fields_from};
ghost use Rattle.library_tests.specs.Run.{Asked, CycleOf, WalkOf, TickOf, PartOf, label_part, old_label_part};

use bands::lists::Lists;
use checks::cast::sides_fit;
use grid::place::cell_count;
use levels::sides::Levels;
use method::{Settings, Sides};

// What a walk through a cast found: whether the cast and the room fit (else all is 0), depth, and the first sealed cell
// if there is one. Kept: C has no `Option`.
#[repr(C)]
#[derive(Clone, Copy)]
pub struct Walk {
    pub fits: u32,
    pub depth: u32,
    pub found: u32,
    pub sealed: u32,
}

// A binary64 as a whole tick, if it is one. Kept: C has no `Option`.
#[repr(C)]
#[derive(Clone, Copy)]
pub struct Ticked {
    pub whole: u32,
    pub value: i64,
}

// The cycle, once and then as often as makes `times` in all. Each starts from u = 0, so that all give the same.
fn cycles(
    room: &mut [f64],
    bytes: &[u8],
    words: &[u32],
    l: Levels,
    s: Lists,
    count: usize,
    times: usize,
)
    requires ready { Ready l s count 0 bytes.now words.now (length room.old) }
    requires ended { Ended (fields_from (base l) count 0) room.old }
    ensures { Cycled l bytes.now count 0 room.old room.new }
{
    cycle::cycle(room, bytes, words, l, s, count, 0);
    for _ in 1..times {
        cycle::cycle(room, bytes, words, l, s, count, 0);
    }
}

// The levels of a cast are laid into the rooms, and the cycle is run: u from b.
fn run(
    room: &mut [f64],
    bytes: &mut [u8],
    words: &mut [u32],
    labels: &[u8],
    g: Sides,
    count: usize,
    times: usize,
)
    requires { Asked g count (length labels.now) (length bytes.old) (length words.old) (length room.old) }
    ensures { u_of (cells g) room.new ≡ cycle 0 (count - 1) g labels.now (b_of (cells g) room.old) }
{
    let l = levels::sides::levels_of(g);
    levels::labels::all_labels(bytes, labels, l, count);
    let s = bands::lists::all_lists(words, bytes, l, count);
    cycle::end_in_zero(room);
    cycles(room, bytes, words, l, s, count, times);
}

// u from b by the cycle of so many levels, where these and the lengths fit.
fn fitted_cycle(
    sides: Sides,
    levels: u32,
    times: u32,
    labels: &[u8],
    bytes: &mut [u8],
    floats: &mut [f64],
    words: &mut [u32],
) -> u32
    requires { Fit sides }
    ensures { CycleOf sides levels labels.now floats.old result floats.new }
{
    let n = cell_count(sides);
    if levels < 1 {
        return 0;
    }
    if 6 < levels {
        return 0;
    }
    if labels.len() != n {
        return 0;
    }
    if bytes.len() < rooms::byte_need(n) {
        return 0;
    }
    if words.len() < 2 * n + 5 {
        return 0;
    }
    if floats.len() < 6 * n + 16 {
        return 0;
    }
    run(
        floats,
        bytes,
        words,
        labels,
        sides,
        levels as usize,
        times as usize,
    );
    1
}

// u from b by the cycle of so many levels, run so many times, on a room that starts with u and b: 1; or 0 where
// something does not fit.
#[unsafe(no_mangle)]
pub extern "C" fn quetz_test_cycle(
    sides: Sides,
    levels: u32,
    times: u32,
    labels: &[u8],
    bytes: &mut [u8],
    floats: &mut [f64],
    words: &mut [u32],
) -> u32
    ensures { CycleOf sides levels labels.now floats.old result floats.new }
{
    if sides_fit(sides) {
        return fitted_cycle(sides, levels, times, labels, bytes, floats, words);
    }
    0
}

// Nothing was walked.
fn unfit() -> Walk
    ensures { result.fits ≡ 0 }
{
    Walk {
        fits: 0,
        depth: 0,
        found: 0,
        sealed: 0,
    }
}

// Depth, and the first sealed cell, where the lengths fit.
fn fitted_walk(sides: Sides, labels: &[u8], words: &mut [u32]) -> Walk
    requires { Fit sides }
    ensures { WalkOf sides labels.now result }
{
    let n = cell_count(sides);
    if labels.len() != n {
        return unfit();
    }
    if words.len() < 2 * n {
        return unfit();
    }
    let w = distances::distances(words, labels, sides);
    match w.sealed {
        Some(c) => Walk {
            fits: 1,
            depth: w.depth,
            found: 1,
            sealed: c,
        },
        None => Walk {
            fits: 1,
            depth: w.depth,
            found: 0,
            sealed: 0,
        },
    }
}

// Depth, and the first sealed cell, of a cast.
#[unsafe(no_mangle)]
pub extern "C" fn quetz_test_walk(sides: Sides, labels: &[u8], words: &mut [u32]) -> Walk
    ensures { WalkOf sides labels.now result }
{
    if sides_fit(sides) {
        return fitted_walk(sides, labels, words);
    }
    unfit()
}

// The whole tick that a binary64 rounds to.
#[unsafe(no_mangle)]
pub extern "C" fn quetz_test_tick(x: f64) -> Ticked
    ensures { TickOf x result }
{
    match ticks::tick::to_tick(x) {
        Some(z) => Ticked { whole: 1, value: z },
        None => Ticked { whole: 0, value: 0 },
    }
}

// A part, copied to the front of the output: how long it is, or 0 where the output is too short.
fn put_part(part: &[u8], output: &mut [u8]) -> usize
    ensures { PartOf part.now output.old result output.new }
{
    if output.len() < part.len() {
        return 0;
    }
    text_out::put_bytes(output, 0, part)
}

// The label part of a session that is read with room for so many values.
#[unsafe(no_mangle)]
pub extern "C" fn quetz_test_labels(bytes: &[u8], room: usize, output: &mut [u8]) -> usize
    ensures { PartOf (label_part bytes.now room) output.old result output.new }
{
    put_part(session_read::labels(bytes, room), output)
}

// The label part of an old session that is read with room for so many values.
#[unsafe(no_mangle)]
pub extern "C" fn quetz_test_old_labels(
    settings: Settings,
    bytes: &[u8],
    room: usize,
    output: &mut [u8],
) -> usize
    ensures { PartOf (old_label_part settings bytes.now room) output.old result output.new }
{
    put_part(old_read::old_labels(settings, bytes, room), output)
}
