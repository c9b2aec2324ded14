// The labels of every level, one level after the other in the byte room.
ghost use Rattle.std.specs.Prelude.{◌≡◌, ◌+◌, ◌≤◌, ◌<◌, length, take, drop};
ghost use Rattle.method.specs.Cast.{cells, label_at};
ghost use Rattle.method.specs.Levels.{halved, coarse_label, coarse};
ghost use Rattle.theory.specs.Sides.{Fit};
ghost use Rattle.levels.specs.Rooms.{written};
ghost use Rattle.levels.specs.Levels.{base};
ghost use Rattle.levels.specs.Kin.{Near, child_at, outrank};
ghost use Rattle.levels.specs.AllLabels.{CoarseAsked, LabelsAsked, all_labels, coarsen_step};

use crate::sides::Levels;
use grid::place::Spot;
use method::Sides;

// The t-th of the eight children of the coarse cell at s, or n, the number of cells, outside the box.
pub fn child(g: Sides, n: usize, s: Spot, t: usize) -> usize
    requires fit { Fit g }
    requires near { Near s }
    requires n_value { (n ≡ cells g) × (t < 8) }
    ensures { result ≡ child_at g s t }
{
    let x = 2 * s.x + t % 2 + 1;
    let y = 2 * s.y + t / 2 % 2 + 1;
    let z = 2 * s.z + t / 2 / 2 % 2 + 1;
    grid::place::place(g, n, x, y, z)
}

// A coarse label so far, and one child's label more: an opening outranks air, and air a wall.
fn with_child(so_far: u8, label: u8) -> u8
    ensures { result ≡ outrank so_far label }
{
    if so_far == 1 {
        return 1;
    }
    if label == 1 {
        return 1;
    }
    if label == 0 {
        return 0;
    }
    so_far
}

// The same with the t-th child of the coarse cell at s.
fn label_step(labels: &[u8], g: Sides, n: usize, s: Spot, t: usize, so_far: u8) -> u8
    requires fit { Fit g }
    requires near { Near s }
    requires n_value { (n ≡ cells g) × (t < 8) }
    ensures { result ≡ outrank so_far (label_at labels.now (child_at g s t)) }
{
    with_child(so_far, grid::near::label_at(labels, child(g, n, s, t)))
}

// The label of coarse cell c; h is the sides of the coarse level, n the number of cells of the fine one.
pub fn coarse_label(labels: &[u8], g: Sides, h: Sides, n: usize, c: usize) -> u8
    requires { CoarseAsked g h n c }
    ensures { result ≡ coarse_label g labels.now c }
{
    let s = grid::place::spot_of(h, c);
    let mut label = 2;
    for t in 0..8 {
        label = label_step(labels, g, n, s, t, label);
    }
    label
}

// Coarse cell c of the level that starts at `at`: its label goes after that level's own labels.
fn coarsen_at(bytes: &mut [u8], at: usize, g: Sides, h: Sides, n: usize, c: usize)
    requires coarse_asked { CoarseAsked g h n c }
    requires c_in_bounds { at + n + c < length bytes.old }
    ensures { bytes.new ≡ coarsen_step g at n c bytes.old }
{
    let end = at + n;
    let label = coarse_label(&bytes[at..end], g, h, n, c);
    bytes[end + c] = label;
}

// The labels of the next level, from those of the level of sides g that starts at `at`.
pub fn coarsen(bytes: &mut [u8], at: usize, g: Sides)
    requires fit { Fit g }
    requires g_in_bounds { at + cells g + cells (halved g) ≤ length bytes.old }
    ensures { bytes.new ≡ written bytes.old (at + cells g) (coarse g (take (cells g) (drop at bytes.old))) }
{
    let h = crate::sides::halved_of(g);
    let n = grid::place::cell_count(g);
    let m = grid::place::cell_count(h);
    for c in 0..m {
        coarsen_at(bytes, at, g, h, n, c);
    }
}

// The caller's labels as level 0's.
// Kept, label by label: `copy_from_slice` is a call of C's `memmove`, which the library for C needs for nothing else.
fn copy(bytes: &mut [u8], labels: &[u8])
    requires { length labels.now ≤ length bytes.old }
    ensures { bytes.new ≡ written bytes.old 0 labels.now }
{
    for i in 0..labels.len() {
        bytes[i] = labels[i];
    }
}

// The labels of the levels 0 to count - 1, one after the other: each level but the last gives those of the next.
pub fn all_labels(bytes: &mut [u8], labels: &[u8], l: Levels, count: usize)
    requires { LabelsAsked l count (length labels.now) (length bytes.old) }
    ensures { bytes.new ≡ written bytes.old 0 (all_labels (base l) labels.now count) }
{
    copy(bytes, labels);
    for level in &l[..count - 1] {
        coarsen(bytes, level.start, level.sides);
    }
}
