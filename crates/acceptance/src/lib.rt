// Document 01's test of a round: x rounded to whole ticks, and judged by the exact residuals that these leave. Each
// tick is taken from x where it is wanted, so the test needs no room.
#![tactic(auto)]

ghost use Rattle.std.specs.Prelude.{◌≡◌, ◌≤◌, ◌<◌, ◌^◌, nat_abs, length, set};
ghost use Rattle.method.specs.Cast.{cells, label_at, field};
ghost use Rattle.method.specs.Transfers.{value};
ghost use Rattle.method.specs.Ticks.{rounded};
ghost use Rattle.ticks.specs.Faces.{Gathered, Residual};
ghost use Rattle.ticks.specs.Worst.{worst_step};
ghost use Rattle.acceptance.specs.Trial.{Asked, tested};
ghost use Rattle.acceptance.specs.Cells.{rounded_on, pressure_by, Pressure, Added, refused_at};

use grid::near::{label_at, neighbours};
use method::{Settings, Sides};
use ticks::Faces;

// Kept: sides, labels, values and x go from function to function. A struct of them holds a `&`, so that each `ensures`
// would speak of its fields as they were at the entry, `k.entry.labels.now` for `labels.now`.

// The pressure of cell j, by its label: the tick of x in air, the level at an opening, 0 at a wall.
fn whole_at(label: u8, values: &[i32], x: &[f64], j: usize) -> i64
    requires { (j < length values.now) × (j < length x.now) }
    ensures { Pressure label (field values.now j) (value x.now j) result }
{
    if label == 0 {
        return ticks::tick::whole_back(x[j]);
    }
    if label == 1 {
        return i64::from(values[j]);
    }
    0
}

// The cells across the faces so far, with cell j: its label is read once, and its pressure taken by it.
fn visit(g: Sides, labels: &[u8], values: &[i32], x: &[f64], j: usize, a: Faces) -> Faces
    requires { Asked g labels.now values.now x.now × ((a.d ≤ 5) × (nat_abs a.sum ≤ 2 ^ 44)) }
    ensures { Added labels.now (rounded_on g labels.now values.now x.now) j a result }
{
    let label = label_at(labels, j);
    let no_wall = label < 2;
    if no_wall {
        Faces {
            d: a.d + 1,
            sum: signed_numbers::plus(a.sum, whole_at(label, values, x, j)),
        }
    } else {
        a
    }
}

// All six cells across c's faces.
fn gather(g: Sides, labels: &[u8], values: &[i32], x: &[f64], c: usize) -> Faces
    requires { Asked g labels.now values.now x.now × (c < cells g) }
    ensures { Gathered g labels.now (rounded_on g labels.now values.now x.now) c result }
{
    let mut a = Faces { d: 0, sum: 0 };
    for j in neighbours(g, labels.len(), c) {
        a = visit(g, labels, values, x, j, a);
    }
    a
}

// The exact residual at the air cell c.
pub fn residual_at(g: Sides, labels: &[u8], values: &[i32], x: &[f64], c: usize) -> i64
    requires { Asked g labels.now values.now x.now × ((c < cells g) × (0 ≡ label_at labels.now c)) }
    ensures { Residual g labels.now values.now (rounded_on g labels.now values.now x.now) c result }
{
    let a = gather(g, labels, values, x, c);
    let source = i64::from(values[c]);
    let own = whole_at(0, values, x, c);
    ticks::residual_of(source, a.sum, a.d, own)
}

// The greatest size so far, with cell c's, where c is air.
fn worst_at(g: Sides, labels: &[u8], values: &[i32], x: &[f64], c: usize, w: u64) -> u64
    requires { Asked g labels.now values.now x.now × (c < cells g) }
    ensures { result ≡ worst_step g labels.now values.now (rounded_on g labels.now values.now x.now) c w }
{
    if label_at(labels, c) == 0 {
        let r = residual_at(g, labels, values, x, c);
        let a = r.unsigned_abs();
        if w < a {
            return a;
        }
    }
    w
}

// Whether the tick of cell c is refused, where c is air.
fn refused_at(labels: &[u8], x: &[f64], c: usize) -> bool
    requires { c < length x.now }
    ensures { result ≡ refused_at labels.now x.now c }
{
    label_at(labels, c) == 0 && ticks::tick::to_tick(x[c]).is_none()
}

// The test, left at the first air cell that fails it: its tick is refused, or its residual is beyond the tolerance. The
// worst so far is within the tolerance, so it is beyond it only where cell c's residual is. The worst where x passes.
pub fn test(g: Sides, labels: &[u8], values: &[i32], x: &[f64], settings: Settings) -> Option<u32>
    requires { Asked g labels.now values.now x.now × (settings.tolerance ≤ 1000000) }
    ensures { result ≡ tested (record { sides = g; labels = labels.now; values = values.now }) settings x.now }
{
    let tolerance = u64::from(settings.tolerance);
    let mut w = 0;
    for c in 0..labels.len() {
        if refused_at(labels, x, c) {
            return None;
        }
        w = worst_at(g, labels, values, x, c, w);
        if tolerance < w {
            return None;
        }
    }
    Some(w as u32)
}

// The pressure of cell c, written down.
fn write_at(pressures: &mut [i64], labels: &[u8], values: &[i32], x: &[f64], c: usize)
    requires { (c < length pressures.old) × ((c < length values.now) × (c < length x.now)) }
    ensures { pressures.new ≡ set pressures.old c (pressure_by (label_at labels.now c) (field values.now c) (value x.now c)) }
{
    let p = whole_at(label_at(labels, c), values, x, c);
    pressures[c] = p;
}

// All pressures, written down: the level at an opening, 0 at a wall, the tick of x in air.
pub fn write_ticks(pressures: &mut [i64], g: Sides, labels: &[u8], values: &[i32], x: &[f64])
    requires { Asked g labels.now values.now x.now × (length pressures.old ≡ cells g) }
    ensures { pressures.new ≡ rounded (record { sides = g; labels = labels.now; values = values.now }) x.now }
{
    for c in 0..labels.len() {
        write_at(pressures, labels, values, x, c);
    }
}
