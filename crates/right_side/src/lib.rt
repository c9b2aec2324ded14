// The right side b: at a cell its source and the levels of the openings across its faces, summed as whole numbers and
// converted once.
#![tactic(auto)]

ghost use Rattle.std.specs.Prelude.{◌≡◌, ◌≤◌, ◌<◌, ◌^◌, nat_abs, length};
ghost use Rattle.laws.specs.Binary64.{ofℤ};
ghost use Rattle.method.specs.Cast.{cells};
ghost use Rattle.theory.specs.Sides.{Fit};
ghost use Rattle.right_side.specs.Sources.{Levelled, whole_side, WholeSide};

// The sum with cell j's level, where it is an opening.
fn level_at(labels: &[u8], values: &[i32], j: usize, sum: i64) -> i64
    requires { (length values.now ≡ length labels.now) × (nat_abs sum ≤ 2 ^ 40) }
    ensures { Levelled labels.now values.now j sum result }
{
    let opening = grid::near::label_at(labels, j) == 1;
    if opening {
        signed_numbers::plus(sum, i64::from(values[j]))
    } else {
        sum
    }
}

// b at cell c as a whole number.
fn whole_at(labels: &[u8], values: &[i32], g: method::Sides, c: usize) -> i64
    requires { Fit g × ((length labels.now ≡ cells g) × ((length values.now ≡ length labels.now) × (c < cells g))) }
    ensures { WholeSide g labels.now values.now c result }
{
    let around = grid::near::neighbours(g, labels.len(), c);
    let mut b = i64::from(values[c]);
    for j in around {
        b = level_at(labels, values, j, b);
    }
    b
}

// b at cell c.
pub fn right_at(labels: &[u8], values: &[i32], g: method::Sides, c: usize) -> f64
    requires { Fit g × ((length labels.now ≡ cells g) × ((length values.now ≡ length labels.now) × (c < cells g))) }
    ensures { result ≡ ofℤ (whole_side g labels.now values.now c) }
{
    ticks::tick::whole_float(whole_at(labels, values, g, c))
}
