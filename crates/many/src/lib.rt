// One cast with many sets (document 02, wish 1): the labels are checked and coarsened once, then each set is solved
// on the prepared cast.
#![tactic(auto)]

ghost use Rattle.std.specs.Prelude.{◌≡◌, ◌+◌, ◌*◌, length};
ghost use Rattle.many.specs.ManySolve.{asked_many, SolveManyOf, ManyChecked, ManyWorked};

use answers::{Fault, Measured, done};
use many_checks::{Lengths, judge};
use many_sets::all_sets;
use method::{Answer, Settings, Sides};
use rooms::clear;
use solve::prepare::prepare;

// Kept: the cast and what is lent go from function to function, since a struct of them holds a `&`: each `ensures` would speak of
// its fields as they were at the entry.

// Past check 6, in rooms of just the size needed: the distances, check 7, the cast prepared, and then all sets.
fn work(
    sides: Sides,
    labels: &[u8],
    settings: Settings,
    sets: u32,
    values: &[i32],
    pressures: &mut [i64],
    answers: &mut [i64],
    bytes: &mut [u8],
    floats: &mut [f64],
    words: &mut [u32],
) -> Answer
    requires { ManyChecked sides labels.now settings sets values.now (length pressures.old) (length answers.old) (length bytes.old) (length floats.old) (length words.old) }
    ensures { ManyWorked sides labels.now values.now settings sets pressures.old answers.old result pressures.new answers.new }
{
    let walked = distances::distances(words, labels, sides);
    match walked.sealed {
        Some(cell) => Answer::from(Fault::SealedAir(cell)),
        None => {
            let of = Measured {
                interior: grid::interior::interior(labels, sides),
                depth: walked.depth,
            };
            let plan = prepare(sides, labels, settings.levels, bytes, words);
            all_sets(
                sets,
                sides,
                labels,
                values,
                settings,
                of,
                plan,
                &bytes[..],
                &words[..],
                floats,
                pressures,
                answers,
            );
            done()
        }
    }
}

// Solves all sets. Nothing lent is changed by a refusal before 7; past it the needed part of each room is handed back
// as zeros.
pub fn solve_many(
    sides: Sides,
    labels: &[u8],
    settings: Settings,
    sets: u32,
    values: &[i32],
    pressures: &mut [i64],
    answers: &mut [i64],
    bytes: &mut [u8],
    floats: &mut [f64],
    words: &mut [u32],
) -> Answer
    ensures { SolveManyOf (asked_many sides labels.now settings sets values.now pressures.old answers.old bytes.old floats.old words.old) result pressures.new answers.new bytes.new floats.new words.new }
{
    let of = Lengths {
        values: values.len(),
        pressures: pressures.len(),
        answers: answers.len(),
        bytes: bytes.len(),
        floats: floats.len(),
        words: words.len(),
    };
    match judge(sides, labels, settings, sets, of) {
        Err(fault) => Answer::from(fault),
        Ok(()) => {
            let n = labels.len();
            let b = 2 * n + 16;
            let f = 8 * n + 64;
            let w = 2 * n;
            let answer = work(
                sides,
                labels,
                settings,
                sets,
                values,
                pressures,
                answers,
                &mut bytes[0..b],
                &mut floats[0..f],
                &mut words[0..w],
            );
            clear(bytes, floats, words, n);
            answer
        }
    }
}
