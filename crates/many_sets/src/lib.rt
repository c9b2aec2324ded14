// One cast with many sets (document 02, wish 1), past check 7: each set on the prepared cast, its answer and its
// pressures into their own stretches.
#![tactic(auto)]

ghost use Rattle.std.specs.Prelude.{◌≡◌, ◌+◌, ◌≤◌, length};
ghost use Rattle.method.specs.Cast.{cells};
ghost use Rattle.method.specs.Many.{fields, field_count};
ghost use Rattle.many_sets.specs.Sets.{CastReady, SetOf, Turned, SetsAsked, SetsOf};

use answers::{Fault, Measured};
use checks::cast::bad_value;
use method::{Answer, Settings, Sides};
use rounds::Plan;

// An answer's fields, in document 01's order, into their stretch.
#[tactic(auto, unfolding(method::specs::Many::fields))]
fn put_answer(answers: &mut [i64], answer: Answer)
    requires { length answers.old ≡ field_count }
    ensures { answers.new ≡ fields answer }
{
    answers.copy_from_slice(&[
        i64::from(answer.number),
        i64::from(answer.place),
        i64::from(answer.rounds),
        i64::from(answer.worst),
        i64::from(answer.worstcell),
        i64::from(answer.worstvalue),
        i64::from(answer.interior),
        i64::from(answer.depth),
    ]);
}

// Kept: the cast, the plan and what is lent go from function to function, since a struct of them holds a `&`: each `ensures` would speak of
// its fields as they were at the entry.

// One set: check 5, and then its rounds. The labels and lists stay as they are, and nothing is asked of what the
// binary64 room holds.
fn one_set(
    sides: Sides,
    labels: &[u8],
    values: &[i32],
    settings: Settings,
    of: Measured,
    plan: Plan,
    bytes: &[u8],
    words: &[u32],
    floats: &mut [f64],
    pressures: &mut [i64],
) -> Answer
    requires cast_ready { CastReady sides labels.now settings of plan bytes.now words.now (length floats.old) }
    requires values_len { (length values.now ≡ cells sides) × (length pressures.old ≡ cells sides) }
    ensures { SetOf sides labels.now values.now settings pressures.old result pressures.new }
{
    match bad_value(labels, values, labels.len()) {
        Some(cell) => Answer::from(Fault::BadValue(cell)),
        None => solve::run(
            sides, labels, values, settings, of, plan, bytes, words, floats, pressures,
        ),
    }
}

// The set whose stretches start at from, of values and pressures, and at, of answers.
fn take_turn(
    from: usize,
    at: usize,
    sides: Sides,
    labels: &[u8],
    values: &[i32],
    settings: Settings,
    of: Measured,
    plan: Plan,
    bytes: &[u8],
    words: &[u32],
    floats: &mut [f64],
    pressures: &mut [i64],
    answers: &mut [i64],
)
    requires cast_ready { CastReady sides labels.now settings of plan bytes.now words.now (length floats.old) }
    requires sides_in_bounds { (from + cells sides ≤ length values.now) × ((from + cells sides ≤ length pressures.old) × ((at + field_count ≤ length answers.old) × (at ≤ 1000))) }
    ensures { Turned sides labels.now values.now settings from at pressures.old answers.old pressures.new answers.new }
{
    let to = from + labels.len();
    let answer = one_set(
        sides,
        labels,
        &values[from..to],
        settings,
        of,
        plan,
        bytes,
        words,
        floats,
        &mut pressures[from..to],
    );
    let end = at + 8;
    put_answer(&mut answers[at..end], answer);
}

// All sets, one after the other.
pub fn all_sets(
    sets: u32,
    sides: Sides,
    labels: &[u8],
    values: &[i32],
    settings: Settings,
    of: Measured,
    plan: Plan,
    bytes: &[u8],
    words: &[u32],
    floats: &mut [f64],
    pressures: &mut [i64],
    answers: &mut [i64],
)
    requires cast_ready { CastReady sides labels.now settings of plan bytes.now words.now (length floats.old) }
    requires sets_asked { SetsAsked sides values.now sets (length pressures.old) (length answers.old) }
    ensures { SetsOf sides labels.now values.now settings sets pressures.old answers.old pressures.new answers.new }
{
    for s in 0..sets as usize {
        let from = s * labels.len();
        let at = s * 8;
        take_turn(
            from, at, sides, labels, values, settings, of, plan, bytes, words, floats, pressures,
            answers,
        );
    }
}
