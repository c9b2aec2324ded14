// The solver's checks before 7, in document 01's order: 1 to 6, each over the whole cast before the next.
ghost use Rattle.std.specs.Prelude.{◌≡◌, ◌≤◌, length};
ghost use Rattle.method.specs.Cast.{cells};
ghost use Rattle.method.specs.Answers.{verdict};
ghost use Rattle.method.specs.Solving.{checks_before7};
ghost use Rattle.theory.specs.Sides.{Fit};
ghost use Rattle.checks.specs.Rulings.{ruling_of};
ghost use Rattle.solve.specs.Solve.{asked, lengths_by, content_ruling};

use answers::Fault;
use checks::cast::{judge_air, judge_cells, judge_settings, judge_sides};
use grid::place::cell_count;
use method::{Settings, Sides};
use rooms::{byte_need, float_need, word_need};

// Check 2: labels, values and pressures have one element a cell, and no room is short.
#[tactic(auto, unfolding(crate::specs::Solve::lengths_by))]
fn lengths_fit(
    n: usize,
    labels: usize,
    values: usize,
    pressures: usize,
    bytes: usize,
    floats: usize,
    words: usize,
) -> bool
    requires { n ≤ 32768 }
    ensures { result ≡ lengths_by n labels values pressures bytes floats words }
{
    labels == n
        && values == n
        && pressures == n
        && byte_need(n) <= bytes
        && float_need(n) <= floats
        && word_need(n) <= words
}

// Checks 3 to 6, of a cast with a label and a value for each of its n cells.
fn judge_content(
    sides: Sides,
    labels: &[u8],
    values: &[i32],
    settings: Settings,
    n: usize,
) -> Result<(), Fault>
    requires fit { Fit sides }
    requires n_value { (n ≡ cells sides) × ((n ≤ 32768) × ((length labels.now ≡ n) × (length values.now ≡ n))) }
    ensures { result ≡ content_ruling sides labels.now values.now settings n }
{
    judge_settings(settings)?;
    judge_cells(labels, values, n)?;
    judge_air(sides, labels)
}

// Checks 1 and 2, and then those of the content.
pub(crate) fn judge(
    sides: Sides,
    labels: &[u8],
    values: &[i32],
    settings: Settings,
    pressures: &[i64],
    bytes: &[u8],
    floats: &[f64],
    words: &[u32],
) -> Result<(), Fault>
    ensures { verdict checks_before7 (asked sides labels.now values.now settings pressures.now bytes.now floats.now words.now) ≡ ruling_of result }
{
    judge_sides(sides)?;
    let n = cell_count(sides);
    if !lengths_fit(
        n,
        labels.len(),
        values.len(),
        pressures.len(),
        bytes.len(),
        floats.len(),
        words.len(),
    ) {
        return Err(Fault::WrongLength);
    }
    judge_content(sides, labels, values, settings, n)
}
