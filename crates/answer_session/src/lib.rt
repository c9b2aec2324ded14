// The answer to one session, printed (document 01, "The program"): the reader's where it refuses, else the solver's.
#![tactic(auto)]

ghost use Rattle.std.specs.Prelude.{◌≡◌, false, ◌&&◌, ◌≤◌, ltb, length};
ghost use Rattle.method.specs.Cast.{cells, sides_fit};
ghost use Rattle.method.specs.Solving.{solving};
ghost use Rattle.method.specs.Program.{shown, printed};
ghost use Rattle.answer_print.specs.Shows.{print_room, PutShort};
ghost use Rattle.solve.specs.Solve.{asked};
ghost use Rattle.prints.specs.Prints.{crowded};
ghost use Rattle.session_header.specs.Lines.{HeaderOf};
ghost use Rattle.answer_session.specs.Responds.{RoomFor, IsRead, LabelsAt, crowded_by};

use answer_print::show;
use answers::Fault;
use checks::cast::sides_fit;
use grid::place::cell_count;
use method::{Answer, Settings, Sides};
use session_header::{Header, read_header};
use session_read::Session;

// What the solver is lent: a pressure for each cell, and its rooms. All of it is scratch, and may be longer than needed.
#[derive(Drop)]
pub struct Lent<'a> {
    pub pressures: &'a mut [i64],
    pub bytes: &'a mut [u8],
    pub floats: &'a mut [f64],
    pub words: &'a mut [u32],
}

// Whether sides are in range and have more cells than there is room for.
fn past(sides: Sides, limit: usize) -> bool
    ensures { result ≡ (sides_fit sides && ltb limit (cells sides)) }
{
    if sides_fit(sides) {
        return limit < cell_count(sides);
    }
    false
}

// The same of the sides that a header names.
fn too_many(read: Result<Header, u32>, limit: usize) -> bool
    ensures { result ≡ crowded_by limit read }
{
    match read {
        Err(_) => false,
        Ok(h) => past(h.sides, limit),
    }
}

// A cast is solved, and the answer shown.
pub fn solved(
    sides: Sides,
    labels: &[u8],
    values: &[i32],
    settings: Settings,
    pressures: &mut [i64],
    bytes: &mut [u8],
    floats: &mut [f64],
    words: &mut [u32],
    output: &mut [u8],
) -> usize
    requires { print_room (length pressures.old) ≤ length output.old }
    ensures { PutShort (print_room (length pressures.old)) (shown (solving (asked sides labels.now values.now settings pressures.old bytes.old floats.old words.old))) output.old 0 output.new result }
{
    let answer = solve::solve(
        sides, labels, values, settings, pressures, bytes, floats, words,
    );
    show(answer, &pressures[..], output)
}

// A session that was read is solved, in the parts of what is lent that its cells take; its labels are a part of the input.
fn solve_read(
    input: &[u8],
    limit: usize,
    read: Session,
    values: &[i32],
    lent: Lent<'_>,
    output: &mut [u8],
) -> usize
    requires roomy { RoomFor limit (length values.now) lent (length output.old) }
    requires read { IsRead limit input.now read.sides read.settings values.now }
    requires labels_at { LabelsAt input.now read.sides read.start }
    ensures { PutShort (print_room limit) (printed limit input.now) output.old 0 output.new result }
{
    let sides = read.sides;
    let settings = read.settings;
    let start = read.start;
    let n = cell_count(sides);
    let Lent {
        pressures,
        bytes,
        floats,
        words,
    } = lent;
    solved(
        sides,
        &input[start..start + n],
        &values[..n],
        settings,
        &mut pressures[..n],
        bytes,
        floats,
        words,
        output,
    )
}

// A session that does not name too many cells is read, and solved where the reader does not refuse it.
fn answered(
    input: &[u8],
    header: Result<Header, u32>,
    limit: usize,
    values: &mut [i32],
    lent: Lent<'_>,
    output: &mut [u8],
) -> usize
    requires roomy { RoomFor limit (length values.old) lent (length output.old) }
    requires header_of { HeaderOf input.now header }
    requires input_value { crowded limit input.now ≡ false }
    ensures { PutShort (print_room limit) (printed limit input.now) output.old 0 output.new result }
{
    let read = session_read::read_after(input, header, values);
    let answer = read.answer;
    // Kept: `Answer` is the one that C has too, by whose number 0 nothing is at fault.
    if answer.number != 0 {
        return show(answer, &[], output);
    }
    solve_read(input, limit, read, &values[..], lent, output)
}

// Puts the print that is due to a session at the front of the output, and answers how many bytes it has. All else that
// is lent is scratch.
pub fn respond(
    input: &[u8],
    limit: usize,
    values: &mut [i32],
    lent: Lent<'_>,
    output: &mut [u8],
) -> usize
    requires { RoomFor limit (length values.old) lent (length output.old) }
    ensures { PutShort (print_room limit) (printed limit input.now) output.old 0 output.new result }
{
    let header = read_header(input);
    if too_many(header, limit) {
        let answer = Answer::from(Fault::WrongLength);
        return show(answer, &[], output);
    }
    answered(input, header, limit, values, lent, output)
}
