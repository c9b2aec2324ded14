// The reader's checks, in document 02's order: 10, 1, 11, 2, 3, 4, 5.
ghost use Rattle.std.specs.Prelude.{◌≡◌, ◌&&◌, ◌*◌, ◌≤◌, length, drop};
ghost use Rattle.method.specs.Cast.{cells, settings_fit, first};
ghost use Rattle.method.specs.OldForm.{unit_fits};
ghost use Rattle.answers.specs.declared.Fault.TheVariants.{BadValue};
ghost use Rattle.checks.specs.Rulings.{ruling_by};
ghost use Rattle.old_header.specs.OldLines.{OldHeaderOf};
ghost use Rattle.old_read.specs.OldBody.{bad_old_value};
ghost use Rattle.old_read.specs.OldReads.{OldJudgedOf, OldSized, old_body_ruling, old_size_ruling};

use crate::values::bad_value;
use answers::Fault;
use checks::cast::{at_fault, judge_labels, judge_sides, settings_fit, unless};
use grid::place::cell_count;
use method::{Settings, Sides};
use old_header::{OldHeader, read_old_header, unit_fits};
use session_header::line::rest;

// Check 3: the unit and the settings.
fn limits_fit(unit: u32, settings: Settings) -> bool
    ensures { result ≡ (unit_fits unit && settings_fit settings) }
{
    unit_fits(unit) && settings_fit(settings)
}

// Checks 1, 11, 2 and 3, of what the lines name, how many bytes the body has, and how many values there is room for.
fn judge_sizes(
    sides: Sides,
    unit: u32,
    left: usize,
    room: usize,
    settings: Settings,
) -> Result<(), Fault>
    ensures { result ≡ old_size_ruling sides unit left room settings }
{
    judge_sides(sides)?;
    let n = cell_count(sides);
    unless(Fault::BadBody, left == 3 * n)?;
    unless(Fault::WrongLength, n <= room)?;
    unless(Fault::SettingOutOfRange, limits_fit(unit, settings))
}

// Check 5, of a body of n cells with these labels.
fn judge_values(body: &[u8], labels: &[u8], n: usize, unit: u32) -> Result<(), Fault>
    requires { (n ≤ 32768) × ((n ≤ length labels.now) × ((2 * n ≤ length body.now) × (unit ≤ 1000))) }
    ensures { result ≡ ruling_by BadValue (first (bad_old_value body.now labels.now unit) n) }
{
    at_fault(
        |cell| Fault::BadValue(cell),
        bad_value(body, labels, n, unit),
    )
}

// Checks 4 and 5, of a body of n cells: its labels come after its values.
fn judge_cells(body: &[u8], n: usize, unit: u32) -> Result<(), Fault>
    requires { (n ≤ 32768) × ((3 * n ≤ length body.now) × (unit ≤ 1000)) }
    ensures { result ≡ old_body_ruling body.now n unit }
{
    let labels = rest(body, 2 * n);
    judge_labels(labels, n)?;
    judge_values(body, labels, n, unit)
}

// Checks 4 and 5, of a session whose sizes are right.
fn judge_content(bytes: &[u8], h: OldHeader) -> Result<(), Fault>
    requires { OldSized bytes.now h }
    ensures { result ≡ old_body_ruling (drop h.start bytes.now) (cells h.sides) h.unit }
{
    let n = cell_count(h.sides);
    let body = rest(bytes, h.start);
    judge_cells(body, n, h.unit)
}

// All checks but 10, of a session whose lines are of the form.
fn judge_named(
    bytes: &[u8],
    room: usize,
    settings: Settings,
    h: OldHeader,
) -> Result<OldHeader, Fault>
    requires { OldHeaderOf bytes.now (Ok h) }
    ensures { OldJudgedOf settings bytes.now room result }
{
    let left = bytes.len() - h.start;
    judge_sizes(h.sides, h.unit, left, room, settings)?;
    judge_content(bytes, h)?;
    Ok(h)
}

// Check 10, and then all others: what the lines name, or the first fault.
pub(crate) fn judge_old(bytes: &[u8], room: usize, settings: Settings) -> Result<OldHeader, Fault>
    ensures { OldJudgedOf settings bytes.now room result }
{
    let h = read_old_header(bytes).map_err(Fault::BadLine)?;
    judge_named(bytes, room, settings, h)
}
