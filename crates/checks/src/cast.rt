// The checks of sides, settings, labels and values.
ghost use Rattle.std.specs.Prelude.{◌≡◌, ℕ, ◌&&◌, ◌<◌, ◌≤◌, ltb, nat_abs, length};
ghost use Rattle.method.specs.Cast.{sides_fit, settings_fit, interior, widest, first};
ghost use Rattle.method.specs.Cast.{between as Cast·between};
ghost use Rattle.answers.specs.declared.Fault.TheVariants.{SideOutOfRange, SettingOutOfRange, BadLabel, BadValue, NoAir};
ghost use Rattle.theory.specs.Sides.{Fit};
ghost use Rattle.checks.specs.Faults.{bad_label_at, bad_value_at, cell_ruling};
ghost use Rattle.checks.specs.Rulings.{ruling_by, unless};

use answers::Fault;
use grid::interior::interior;
use method::{Settings, Sides};
use search::first_where;

// Whether a number is in a range.
fn between(lo: u32, hi: u32, x: u32) -> bool
    ensures { result ≡ Cast·between lo hi x }
{
    lo <= x && x <= hi
}

// Check 1: each side is 1 to 32.
#[tactic(auto, unfolding(method::specs::Cast::sides_fit))]
pub fn sides_fit(sides: Sides) -> bool
    ensures { result ≡ sides_fit sides }
{
    between(1, 32, sides.nx) && between(1, 32, sides.ny) && between(1, 32, sides.nz)
}

// Check 3: each setting is in its range.
#[tactic(auto, unfolding(method::specs::Cast::settings_fit))]
pub fn settings_fit(settings: Settings) -> bool
    ensures { result ≡ settings_fit settings }
{
    between(0, 1000000, settings.tolerance)
        && between(1, 6, settings.levels)
        && between(0, 1000, settings.rounds)
}

// A fault that has no place, unless all is well.
pub fn unless(fault: Fault, well: bool) -> Result<(), Fault>
    ensures { result ≡ unless fault well }
{
    if well { Ok(()) } else { Err(fault) }
}

// What was found, as a fault of this kind.
pub fn at_fault<F: Fn(u32) -> Fault>(kind: F, found: Option<u32>) -> Result<(), Fault>
    requires callable { (c : ℕ) → F.pre kind c }
    ensures { (k : ℕ → Fault) → ((c : ℕ) → (f : Fault) → F.post kind c f → f ≡ k c) → result ≡ ruling_by k found }
{
    match found {
        Some(cell) => Err(kind(cell)),
        None => Ok(()),
    }
}

// Check 1 and its fault.
pub fn judge_sides(sides: Sides) -> Result<(), Fault>
    ensures { result ≡ unless SideOutOfRange (sides_fit sides) }
{
    unless(Fault::SideOutOfRange, sides_fit(sides))
}

// Check 3 and its fault.
pub fn judge_settings(settings: Settings) -> Result<(), Fault>
    ensures { result ≡ unless SettingOutOfRange (settings_fit settings) }
{
    unless(Fault::SettingOutOfRange, settings_fit(settings))
}

// Whether the label at a place is above 2.
#[tactic(auto, using(crate::proofs::CheckLaws::label_cell))]
fn bad_label_at(labels: &[u8], c: usize) -> bool
    requires { c < length labels.now }
    ensures { result ≡ bad_label_at labels.now c }
{
    2 < labels[c]
}

// The first of n labels that is above 2.
pub fn bad_label(labels: &[u8], n: usize) -> Option<u32>
    requires { (n ≤ 32768) × (n ≤ length labels.now) }
    ensures { result ≡ first (bad_label_at labels.now) n }
{
    first_where(n, |c| bad_label_at(labels, c))
}

// The greatest size of a value beside a label.
#[tactic(auto, unfolding(method::specs::Cast::widest))]
fn widest_at(label: u8) -> u32
    ensures { result ≡ widest label }
{
    if label == 0 {
        1000
    } else if label == 1 {
        1000000
    } else {
        0
    }
}

// Whether a value is out of its label's range.
pub fn out_of_range(label: u8, v: i32) -> bool
    ensures { result ≡ ltb (widest label) (nat_abs v) }
{
    widest_at(label) < v.unsigned_abs()
}

// Whether the value of cell c is out of its label's range.
fn bad_value_at(labels: &[u8], values: &[i32], c: usize) -> bool
    requires { (c < length labels.now) × (c < length values.now) }
    ensures { result ≡ bad_value_at labels.now values.now c }
{
    out_of_range(labels[c], values[c])
}

// The first of n cells whose value is out of its label's range.
pub fn bad_value(labels: &[u8], values: &[i32], n: usize) -> Option<u32>
    requires { (n ≤ 32768) × ((n ≤ length labels.now) × (n ≤ length values.now)) }
    ensures { result ≡ first (bad_value_at labels.now values.now) n }
{
    first_where(n, |c| bad_value_at(labels, values, c))
}

// Check 4 of n cells, and its fault.
pub fn judge_labels(labels: &[u8], n: usize) -> Result<(), Fault>
    requires { (n ≤ 32768) × (n ≤ length labels.now) }
    ensures { result ≡ ruling_by BadLabel (first (bad_label_at labels.now) n) }
{
    at_fault(|cell| Fault::BadLabel(cell), bad_label(labels, n))
}

// Check 5 of n cells, and its fault.
fn judge_values(labels: &[u8], values: &[i32], n: usize) -> Result<(), Fault>
    requires { (n ≤ 32768) × ((n ≤ length labels.now) × (n ≤ length values.now)) }
    ensures { result ≡ ruling_by BadValue (first (bad_value_at labels.now values.now) n) }
{
    at_fault(|cell| Fault::BadValue(cell), bad_value(labels, values, n))
}

// Checks 4 and 5 of n cells.
// Not inlined: among the other loops of `quetz_write` these two would go without a register for each slice.
#[inline(never)]
pub fn judge_cells(labels: &[u8], values: &[i32], n: usize) -> Result<(), Fault>
    requires { (n ≤ 32768) × ((n ≤ length labels.now) × (n ≤ length values.now)) }
    ensures { result ≡ cell_ruling labels.now values.now n }
{
    judge_labels(labels, n)?;
    judge_values(labels, values, n)
}

// Check 6 and its fault: no cell is air.
pub fn judge_air(sides: Sides, labels: &[u8]) -> Result<(), Fault>
    requires { Fit sides }
    ensures { result ≡ unless NoAir (ltb 0 (interior sides labels.now)) }
{
    unless(Fault::NoAir, 0 < interior(labels, sides))
}
