// The writer's checks, in document 02's order: 1, 3, 2, 4, 5, 13.
ghost use Rattle.std.specs.Prelude.{◌≡◌, ◌<◌, ◌≤◌, length, replicate};
ghost use Rattle.method.specs.Cast.{first};
ghost use Rattle.answers.specs.declared.Fault.TheVariants.{Inexpressible};
ghost use Rattle.checks.specs.Rulings.{ruling_by};
ghost use Rattle.method.specs.OldForm.{old_lengths_fit};
ghost use Rattle.theory.specs.Sides.{Fit};
ghost use Rattle.old_write.specs.OldWrites.{OldRuledOf, inexpressible, old_offered, old_slice_ruling};

use crate::units::first_inexpressible;
use answers::Fault;
use checks::cast::{at_fault, judge_cells, judge_sides};
use grid::place::cell_count;
use method::Sides;
use old_header::unit_fits;
use old_put::length::old_header_length;

// Check 2: one label and one value a cell, and room in the output.
fn lengths_fit(sides: Sides, unit: u32, labels: &[u8], values: &[i32], room: usize) -> bool
    requires { Fit sides }
    ensures { result ≡ old_lengths_fit (old_offered sides unit labels.now values.now (replicate room 0)) }
{
    let n = cell_count(sides);
    if labels.len() != n {
        return false;
    }
    if values.len() != n {
        return false;
    }
    let count = old_header_length(sides, unit) + 3 * n;
    count <= room
}

// Check 13 of n cells.
fn judge_units(values: &[i32], n: usize, unit: u32) -> Result<(), Fault>
    requires { (0 < unit) × ((n ≤ 32768) × (n ≤ length values.now)) }
    ensures { result ≡ ruling_by Inexpressible (first (inexpressible unit values.now) n) }
{
    at_fault(
        |cell| Fault::Inexpressible(cell),
        first_inexpressible(values, n, unit),
    )
}

// Checks 2, 4, 5 and 13, of sides and a unit that are right.
fn judge_slices(
    sides: Sides,
    unit: u32,
    labels: &[u8],
    values: &[i32],
    room: usize,
) -> Result<(), Fault>
    requires { Fit sides × (0 < unit) }
    ensures { result ≡ old_slice_ruling (old_offered sides unit labels.now values.now (replicate room 0)) }
{
    if !lengths_fit(sides, unit, labels, values, room) {
        return Err(Fault::WrongLength);
    }
    let n = cell_count(sides);
    judge_cells(labels, values, n)?;
    judge_units(values, n, unit)
}

// Checks 1 and 3, and then the others. The output has room for so many bytes.
pub(crate) fn judge_old_cast(
    sides: Sides,
    unit: u32,
    labels: &[u8],
    values: &[i32],
    room: usize,
) -> Result<(), Fault>
    ensures { OldRuledOf sides unit labels.now values.now room result }
{
    judge_sides(sides)?;
    if !unit_fits(unit) {
        return Err(Fault::SettingOutOfRange);
    }
    judge_slices(sides, unit, labels, values, room)
}
