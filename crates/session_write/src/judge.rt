// The writer's checks, in document 01's order: 1, 3, 2, 4, 5.
ghost use Rattle.std.specs.Prelude.{◌≡◌, ◌+◌, ◌*◌, ◌≤◌, leb, length, replicate};
ghost use Rattle.method.specs.Form.{header_written};
ghost use Rattle.method.specs.Writing.{writer_lengths_fit};
ghost use Rattle.theory.specs.Sides.{Fit};
ghost use Rattle.session_write.specs.Writes.{RuledOf, limit_ruling, offered, slice_ruling};

use answers::Fault;
use checks::cast::{judge_cells, judge_settings, judge_sides};
use grid::place::cell_count;
use method::{Order, Settings, Sides};
use session_bytes::length::header_length;

// Kept: sides, order, settings, labels and values go from function to function, since a struct of them holds a `&`: each `ensures` would speak of
// its fields as they were at the entry.

// Checks 1 and 3, of the sides and the settings.
fn judge_limits(sides: Sides, settings: Settings) -> Result<(), Fault>
    ensures { result ≡ limit_ruling sides settings }
{
    judge_sides(sides)?;
    judge_settings(settings)
}

// Whether an output of so many bytes has room for a session of n cells.
fn room_fits(sides: Sides, order: Order, settings: Settings, n: usize, room: usize) -> bool
    requires { n ≤ 32768 }
    ensures { result ≡ leb (length (header_written sides order settings) + 5 * n) room }
{
    let count = header_length(sides, order, settings) + 5 * n;
    count <= room
}

// Check 2: one label and one value a cell, and room in the output.
fn lengths_fit(
    sides: Sides,
    order: Order,
    settings: Settings,
    labels: &[u8],
    values: &[i32],
    room: usize,
) -> bool
    requires { Fit sides }
    ensures { result ≡ writer_lengths_fit (offered sides order settings labels.now values.now (replicate room 0)) }
{
    let n = cell_count(sides);
    if labels.len() != n {
        return false;
    }
    if values.len() != n {
        return false;
    }
    room_fits(sides, order, settings, n, room)
}

// Checks 2, 4 and 5, of sides that are right.
fn judge_slices(
    sides: Sides,
    order: Order,
    settings: Settings,
    labels: &[u8],
    values: &[i32],
    room: usize,
) -> Result<(), Fault>
    requires { Fit sides }
    ensures { result ≡ slice_ruling (offered sides order settings labels.now values.now (replicate room 0)) }
{
    if !lengths_fit(sides, order, settings, labels, values, room) {
        return Err(Fault::WrongLength);
    }
    judge_cells(labels, values, cell_count(sides))
}

// Checks 1 and 3, and then the others. The output has room for so many bytes.
pub(crate) fn judge_cast(
    sides: Sides,
    order: Order,
    settings: Settings,
    labels: &[u8],
    values: &[i32],
    room: usize,
) -> Result<(), Fault>
    ensures { RuledOf sides order settings labels.now values.now room result }
{
    judge_limits(sides, settings)?;
    judge_slices(sides, order, settings, labels, values, room)
}
