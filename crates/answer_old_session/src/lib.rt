// The answer to one old session, with settings that the caller passes, printed as the program prints (document 02, wish
// 2): the reader's where it refuses, else the solver's.
#![tactic(auto)]

ghost use Rattle.std.specs.Prelude.{length};
ghost use Rattle.method.specs.OldProgram.{old_printed};
ghost use Rattle.answer_print.specs.Shows.{print_room, PutShort};
ghost use Rattle.answer_session.specs.Responds.{RoomFor};
ghost use Rattle.answer_old_session.specs.OldResponds.{OldIsRead};

use answer_print::show;
use answer_session::{Lent, solved};
use grid::place::cell_count;
use method::{Settings, Sides};
use old_read::{old_labels, read_old};

// An old session that was read is solved, in the parts of what is lent that its cells take.
fn solve_old(
    input: &[u8],
    sides: Sides,
    settings: Settings,
    values: &[i32],
    lent: Lent<'_>,
    output: &mut [u8],
) -> usize
    requires roomy { RoomFor (length values.now) (length values.now) lent (length output.old) }
    requires old_is_read { OldIsRead settings input.now sides values.now }
    ensures { PutShort (print_room (length values.now)) (old_printed (length values.now) settings input.now) output.old 0 output.new result }
{
    let n = cell_count(sides);
    let labels = old_labels(settings, input, values.len());
    let Lent {
        pressures,
        bytes,
        floats,
        words,
    } = lent;
    solved(
        sides,
        labels,
        &values[..n],
        settings,
        &mut pressures[..n],
        bytes,
        floats,
        words,
        output,
    )
}

// Puts the print that is due to an old session at the front of the output, and answers how many bytes it has. There is
// room for as many cells as there are values; all else that is lent is scratch.
pub fn respond_old(
    settings: Settings,
    input: &[u8],
    values: &mut [i32],
    lent: Lent<'_>,
    output: &mut [u8],
) -> usize
    requires { RoomFor (length values.old) (length values.old) lent (length output.old) }
    ensures { PutShort (print_room (length values.old)) (old_printed (length values.old) settings input.now) output.old 0 output.new result }
{
    let read = read_old(settings, input, values);
    let answer = read.answer;
    // Kept: `Answer` is the one that C has too, by whose number 0 nothing is at fault.
    if answer.number != 0 {
        return show(answer, &[], output);
    }
    let sides = read.sides;
    solve_old(input, sides, settings, &values[..], lent, output)
}
