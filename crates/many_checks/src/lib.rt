// One cast with many sets (document 02, wish 1): the checks of the whole call before 7, in their order 1, 2, 3, 4, 6.
#![tactic(auto)]

ghost use Rattle.std.specs.Prelude.{◌≡◌, ◌&&◌, ◌*◌, ◌≤◌, length};
ghost use Rattle.method.specs.Cast.{cells, settings_fit};
ghost use Rattle.answers.specs.declared.Fault.TheVariants.{SettingOutOfRange};
ghost use Rattle.checks.specs.Rulings.{unless};
ghost use Rattle.theory.specs.Sides.{Fit};
ghost use Rattle.method.specs.Many.{sets_fit};
ghost use Rattle.many_checks.specs.ManyRulings.{lengths_by, content_ruling, many_ruling};

use answers::Fault;
use checks::cast::{judge_air, judge_labels, judge_sides, settings_fit, unless};
use grid::place::cell_count;
use method::{Settings, Sides};

// The lengths of what is lent, beside the labels: values, pressures and answers of all sets, and the rooms.
#[derive(Clone, Copy)]
pub struct Lengths {
    pub values: usize,
    pub pressures: usize,
    pub answers: usize,
    pub bytes: usize,
    pub floats: usize,
    pub words: usize,
}

// How many elements so many stretches of n have, for any number of sets that a u32 holds.
fn laid(sets: u32, n: usize) -> usize
    requires { n ≤ 32768 }
    ensures { result ≡ sets * n }
{
    sets as usize * n
}

// Check 2: values, pressures and answers are as long as the number of sets says, and no room is short.
#[tactic(auto, unfolding(crate::specs::ManyRulings::lengths_by, method::specs::Rooms::byte_need, method::specs::Rooms::float_need, method::specs::Rooms::word_need))]
fn lengths_fit(n: usize, sets: u32, labels: usize, of: Lengths) -> bool
    requires { n ≤ 32768 }
    ensures { result ≡ lengths_by n sets labels of }
{
    labels == n
        && of.values == laid(sets, n)
        && of.pressures == laid(sets, n)
        && of.answers == laid(sets, 8)
        && 2 * n + 16 <= of.bytes
        && 8 * n + 64 <= of.floats
        && 2 * n <= of.words
}

// Whether the number of sets is 1 to 64.
#[tactic(auto, unfolding(method::specs::Many::sets_fit, method::specs::Cast::between))]
fn sets_fit(sets: u32) -> bool
    ensures { result ≡ sets_fit sets }
{
    1 <= sets && sets <= 64
}

// Check 3: each setting is in its range, and the number of sets.
fn task_fits(settings: Settings, sets: u32) -> bool
    ensures { result ≡ (settings_fit settings && sets_fit sets) }
{
    settings_fit(settings) && sets_fit(sets)
}

// Check 3 and its fault.
fn judge_task(settings: Settings, sets: u32) -> Result<(), Fault>
    ensures { result ≡ unless SettingOutOfRange (settings_fit settings && sets_fit sets) }
{
    unless(Fault::SettingOutOfRange, task_fits(settings, sets))
}

// Checks 3, 4 and 6, of a cast with a label for each of its n cells.
fn judge_content(
    sides: Sides,
    labels: &[u8],
    settings: Settings,
    sets: u32,
    n: usize,
) -> Result<(), Fault>
    requires fit { Fit sides }
    requires n_value { (n ≡ cells sides) × ((n ≤ 32768) × (length labels.now ≡ n)) }
    ensures { result ≡ content_ruling sides labels.now settings sets n }
{
    judge_task(settings, sets)?;
    judge_labels(labels, n)?;
    judge_air(sides, labels)
}

// Checks 1 and 2, and then those of the content.
pub fn judge(
    sides: Sides,
    labels: &[u8],
    settings: Settings,
    sets: u32,
    of: Lengths,
) -> Result<(), Fault>
    ensures { result ≡ many_ruling sides labels.now settings sets of }
{
    judge_sides(sides)?;
    let n = cell_count(sides);
    if !lengths_fit(n, sets, labels.len(), of) {
        return Err(Fault::WrongLength);
    }
    judge_content(sides, labels, settings, sets, n)
}
