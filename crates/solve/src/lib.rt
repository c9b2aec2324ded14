// The solver's entry point (document 01, "What comes back"): refusals in their order, then three parts: prepare, run,
// clear.
#![tactic(auto)]

mod judge;
pub mod prepare;

ghost use Rattle.std.specs.Prelude.{◌≡◌, ◌+◌, ◌*◌, length};
ghost use Rattle.rounds.specs.Rounds.{cast_of};
ghost use Rattle.solve.specs.Solve.{asked, SolveOf};
ghost use Rattle.solve.specs.Work.{Checked, Worked, RunAsked, Ran};

use answers::{Fault, Measured, accepted, unfinished};
use judge::judge;
use method::{Answer, Settings, Sides};
use prepare::prepare;
use rooms::clear;
use rounds::Plan;

// Kept: the cast and the four lent slices go from function to function, since a struct of them holds a `&`: each `ensures` would speak of
// its fields as they were at the entry.

// One set of values on a prepared cast: the rounds, and the pressures where they are accepted. Labels and lists stay.
pub fn run(
    sides: Sides,
    labels: &[u8],
    values: &[i32],
    settings: Settings,
    of: Measured,
    plan: Plan,
    bytes: &[u8],
    words: &[u32],
    floats: &mut [f64],
    pressures: &mut [i64],
) -> Answer
    requires { RunAsked sides labels.now values.now settings of plan bytes.now words.now (length floats.old) (length pressures.old) }
    ensures { Ran (cast_of sides labels.now values.now) settings pressures.old result pressures.new }
{
    match rounds::run(floats, bytes, words, plan, labels, values, settings, sides) {
        Ok(passed) => {
            let n = labels.len();
            acceptance::write_ticks(pressures, sides, labels, values, &floats[0..n]);
            let at = worst::worst_of(sides, labels, values, &floats[0..n], passed.worst);
            accepted(passed.rounds, passed.worst, at, of)
        }
        Err(halt) => unfinished(halt.number(), halt.rounds(), of),
    }
}

// Past check 6, in rooms of just the size needed: the distances, check 7, and then what is prepared is run.
fn work(
    sides: Sides,
    labels: &[u8],
    values: &[i32],
    settings: Settings,
    pressures: &mut [i64],
    bytes: &mut [u8],
    floats: &mut [f64],
    words: &mut [u32],
) -> Answer
    requires { Checked sides labels.now values.now settings (length pressures.old) (length bytes.old) (length floats.old) (length words.old) }
    ensures { Worked (cast_of sides labels.now values.now) settings pressures.old result pressures.new }
{
    let walked = distances::distances(words, labels, sides);
    match walked.sealed {
        Some(cell) => Answer::from(Fault::SealedAir(cell)),
        None => {
            let of = Measured {
                interior: grid::interior::interior(labels, sides),
                depth: walked.depth,
            };
            let plan = prepare(sides, labels, settings.levels, bytes, words);
            run(
                sides,
                labels,
                values,
                settings,
                of,
                plan,
                &bytes[..],
                &words[..],
                floats,
                pressures,
            )
        }
    }
}

// Solves a cast. Nothing lent is changed by a refusal before 7; past it the needed part of each room is handed back as
// zeros.
pub fn solve(
    sides: Sides,
    labels: &[u8],
    values: &[i32],
    settings: Settings,
    pressures: &mut [i64],
    bytes: &mut [u8],
    floats: &mut [f64],
    words: &mut [u32],
) -> Answer
    ensures { SolveOf (asked sides labels.now values.now settings pressures.old bytes.old floats.old words.old) result pressures.new bytes.new floats.new words.new }
{
    match judge(
        sides,
        labels,
        values,
        settings,
        &pressures[..],
        &bytes[..],
        &floats[..],
        &words[..],
    ) {
        Err(fault) => Answer::from(fault),
        Ok(()) => {
            let n = labels.len();
            let b = 2 * n + 16;
            let f = 8 * n + 64;
            let w = 2 * n;
            let answer = work(
                sides,
                labels,
                values,
                settings,
                pressures,
                &mut bytes[0..b],
                &mut floats[0..f],
                &mut words[0..w],
            );
            clear(bytes, floats, words, n);
            answer
        }
    }
}
