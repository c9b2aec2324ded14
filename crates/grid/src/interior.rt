// The number of air cells.
ghost use Rattle.std.specs.Prelude.{◌≡◌, cond, ◌+◌, ◌≤◌};
ghost use Rattle.method.specs.Cast.{cells, judged, interior};
ghost use Rattle.theory.specs.Sides.{Fit};

use crate::near::label_at;

// One more where cell c is air.
fn count_at(labels: &[u8], c: usize, k: u32) -> u32
    requires { (k ≤ c) × (c ≤ 32768) }
    ensures { result ≡ cond (judged labels.now c) (k + 1) k }
{
    let air = label_at(labels, c) == 0;
    if air { k + 1 } else { k }
}

// How many of the cells are air.
pub fn interior(labels: &[u8], g: method::Sides) -> u32
    requires { Fit g }
    ensures { result ≡ interior g labels.now }
{
    let n = crate::place::cell_count(g);
    let mut k = 0;
    for c in 0..n {
        k = count_at(labels, c, k);
    }
    k
}
