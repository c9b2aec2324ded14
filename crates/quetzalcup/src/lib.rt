// The C interface (include/quetzalcup.h): each function calls the one that it names, hands on its whole promise and
// asks nothing of its caller.
#![tactic(auto)]

ghost use Rattle.std.specs.Prelude.{◌≡◌, ℕ, ◌≤◌};
ghost use Rattle.method.specs.Rooms.{byte_need, float_need, word_need};
ghost use Rattle.solve.specs.Solve.{asked, SolveOf};
ghost use Rattle.many.specs.ManySolve.{asked_many, SolveManyOf};
ghost use Rattle.old_read.specs.OldReads.{OldReadOf};
ghost use Rattle.old_write.specs.OldWrites.{OldWriteOf};
ghost use Rattle.quetzalcup.specs.Face.{need_by, order_number, ReadBack, WrittenBy, unordered};

use answers::Fault;
use checks::cast::sides_fit;
use grid::place::cell_count;
use method::{Answer, Order, Settings, Sides};
use old_read::OldSession;
use rooms::{byte_need, float_need, word_need};
use session_write::Written;

// What is to be solved or written, beside the cells.
#[repr(C)]
#[derive(Clone, Copy)]
pub struct Task {
    pub sides: Sides,
    pub settings: Settings,
}

// What the reader hands back: the order by its number, and where in the bytes the label part starts.
// Kept: C has no `Result` and no enum, and every field on a refusal too.
#[repr(C)]
#[derive(Clone, Copy)]
pub struct Read {
    pub answer: Answer,
    pub sides: Sides,
    pub order: u32,
    pub settings: Settings,
    pub start: usize,
}

// The number of an order. Kept: C has it as a number, and a `From` would stand in crate method, which has no code.
fn number_of(order: Order) -> u32
    ensures { result ≡ order_number order }
{
    match order {
        Order::Big => 0,
        Order::Little => 1,
    }
}

// The answer to an order that is neither: a setting out of range, and the sides are looked at before.
fn unordered_answer(sides: Sides) -> Answer
    ensures { result ≡ unordered sides }
{
    if sides_fit(sides) {
        Answer::from(Fault::SettingOutOfRange)
    } else {
        Answer::from(Fault::SideOutOfRange)
    }
}

// Solves a cast.
#[unsafe(no_mangle)]
pub extern "C" fn quetz_solve(
    task: Task,
    labels: &[u8],
    values: &[i32],
    pressures: &mut [i64],
    bytes: &mut [u8],
    floats: &mut [f64],
    words: &mut [u32],
) -> Answer
    ensures { SolveOf (asked task.sides labels.now values.now task.settings pressures.old bytes.old floats.old words.old) result pressures.new bytes.new floats.new words.new }
{
    let sides = task.sides;
    let settings = task.settings;
    solve::solve(
        sides, labels, values, settings, pressures, bytes, floats, words,
    )
}

// Solves one cast with many sets.
#[unsafe(no_mangle)]
pub extern "C" fn quetz_solve_many(
    task: Task,
    sets: u32,
    labels: &[u8],
    values: &[i32],
    pressures: &mut [i64],
    answers: &mut [i64],
    bytes: &mut [u8],
    floats: &mut [f64],
    words: &mut [u32],
) -> Answer
    ensures { SolveManyOf (asked_many task.sides labels.now task.settings sets values.now pressures.old answers.old bytes.old floats.old words.old) result pressures.new answers.new bytes.new floats.new words.new }
{
    let sides = task.sides;
    let settings = task.settings;
    many::solve_many(
        sides, labels, settings, sets, values, pressures, answers, bytes, floats, words,
    )
}

// Reads a session.
#[unsafe(no_mangle)]
pub extern "C" fn quetz_read(bytes: &[u8], values: &mut [i32]) -> Read
    ensures { ReadBack bytes.now values.old result values.new }
{
    let read = session_read::read(bytes, values);
    let answer = read.answer;
    let sides = read.sides;
    let order = read.order;
    let settings = read.settings;
    Read {
        answer,
        sides,
        order: number_of(order),
        settings,
        start: read.start,
    }
}

// Writes a session in the order of that number.
#[unsafe(no_mangle)]
pub extern "C" fn quetz_write(
    task: Task,
    order: u32,
    labels: &[u8],
    values: &[i32],
    output: &mut [u8],
) -> Written
    ensures { WrittenBy task.sides order task.settings labels.now values.now output.old result output.new }
{
    let sides = task.sides;
    let settings = task.settings;
    if 1 < order {
        let answer = unordered_answer(sides);
        return Written { answer, count: 0 };
    }
    session_write::write(
        sides,
        session_header::order_of(order),
        settings,
        labels,
        values,
        output,
    )
}

// Reads a session of the old form, with the settings that the caller passes.
#[unsafe(no_mangle)]
pub extern "C" fn quetz_old_read(settings: Settings, bytes: &[u8], values: &mut [i32]) -> OldSession
    ensures { OldReadOf settings bytes.now values.old result values.new }
{
    old_read::read_old(settings, bytes, values)
}

// Writes a session in the old form.
#[unsafe(no_mangle)]
pub extern "C" fn quetz_old_write(
    sides: Sides,
    unit: u32,
    labels: &[u8],
    values: &[i32],
    output: &mut [u8],
) -> Written
    ensures { OldWriteOf sides unit labels.now values.now output.old result output.new }
{
    old_write::write_old(sides, unit, labels, values, output)
}

// A need by the number of cells; 0 where a side is out of range.
fn need<F: FnOnce(usize) -> usize>(sides: Sides, by: F) -> usize
    requires { (n : ℕ) → n ≤ 32768 → F.pre by n }
    ensures { (f : ℕ → ℕ) → ((n : ℕ) → (r : ℕ) → n ≤ 32768 → F.post by n r → r ≡ f n) → result ≡ need_by f sides }
{
    if sides_fit(sides) {
        by(cell_count(sides))
    } else {
        0
    }
}

// How many bytes, binary64 and u32 the solver's rooms need for a cast of these sides; 0 where a side is out of range.
#[unsafe(no_mangle)]
pub extern "C" fn quetz_byte_need(sides: Sides) -> usize
    ensures { result ≡ need_by byte_need sides }
{
    need(sides, byte_need)
}

#[unsafe(no_mangle)]
pub extern "C" fn quetz_float_need(sides: Sides) -> usize
    ensures { result ≡ need_by float_need sides }
{
    need(sides, float_need)
}

#[unsafe(no_mangle)]
pub extern "C" fn quetz_word_need(sides: Sides) -> usize
    ensures { result ≡ need_by word_need sides }
{
    need(sides, word_need)
}
