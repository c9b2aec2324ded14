// An old session in the new form, with an order and settings that the caller passes (document 02, wish 2).
#![tactic(auto)]

ghost use Rattle.std.specs.Prelude.{◌≤◌, length};
ghost use Rattle.prints.specs.Prints.{buffer_for};
ghost use Rattle.answer_old_session.specs.OldResponds.{OldIsRead};
ghost use Rattle.renew.specs.Renews.{RenewOf};

use grid::place::cell_count;
use method::{Order, Settings, Sides};
use old_read::{old_labels, read_old};
use session_write::{Written, write};

// An old session that was read is written in the new form: the writer has nothing to refuse.
fn write_new(
    input: &[u8],
    order: Order,
    settings: Settings,
    sides: Sides,
    values: &[i32],
    output: &mut [u8],
) -> Written
    requires values_in_bounds { buffer_for (length values.now) ≤ length output.old }
    requires old_is_read { OldIsRead settings input.now sides values.now }
    ensures { RenewOf (length values.now) order settings input.now output.old result output.new }
{
    let n = cell_count(sides);
    let labels = old_labels(settings, input, values.len());
    write(sides, order, settings, labels, &values[..n], output)
}

// Writes an old session in the new form at the front of the output, and hands back the reader's answer and how many
// bytes were written, 0 on a refusal.
// There is room for as many cells as there are values, which are scratch.
pub fn renew(
    order: Order,
    settings: Settings,
    input: &[u8],
    values: &mut [i32],
    output: &mut [u8],
) -> Written
    requires { buffer_for (length values.old) ≤ length output.old }
    ensures { RenewOf (length values.old) order settings input.now output.old result output.new }
{
    let read = read_old(settings, input, values);
    let answer = read.answer;
    // Kept: `Answer` is the one that C has too, by whose number 0 nothing is at fault.
    if answer.number != 0 {
        return Written { answer, count: 0 };
    }
    let sides = read.sides;
    write_new(input, order, settings, sides, &values[..], output)
}
