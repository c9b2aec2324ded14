// Prolongation, a row of fine cells at a time: the four coarse rows in ascending order, each added to the sums of all
// fine cells of the row, which stand in t. What isn't air holds +0.0 and adds nothing, so no coarse label is read; then
// each sum over 16 is added to u where the fine cell is air.
#![tactic(auto)]

ghost use Rattle.std.specs.Prelude.{◌≡◌, ◌+◌, ◌-◌, ◌*◌, ◌/◌, ◌%◌, ◌≤◌, ◌<◌, length, take, drop};
ghost use Rattle.laws.specs.Loops.{up};
ghost use Rattle.laws.specs.Binary64.{◌⊕◌, ◌⊗◌};
ghost use Rattle.method.specs.Cast.{cells};
ghost use Rattle.method.specs.Transfers.{value};
ghost use Rattle.theory.specs.Quiet.{Quiet};
ghost use Rattle.transfer.specs.Transfer.{TwoLevels, corrected_room};
ghost use Rattle.transfer.specs.Rows.{Stretch, two, row_step, pair_step, Rows, Halves, Spread, coarse_step, Sums, given_sum, plus_at, plus_step};

use transfer::rows::{RowPair, RowSources};

// The sum of fine cell i with its two cells of the coarse row.
fn two_at(room: &[f64], rows: RowPair, i: usize) -> f64
    requires { (rows.from + rows.cells ≤ length room.now) × ((rows.to + i < length room.now) × (i ≤ 32)) }
    ensures { result ≡ two (take rows.cells (drop rows.from room.now)) rows.far rows.near i (value room.now (rows.to + i)) }
{
    let row = &room[rows.from..rows.from + rows.cells];
    let lower = (i + 1) / 2;
    let even = i % 2 == 0;
    let (below, above) = if even {
        (rows.far, rows.near)
    } else {
        (rows.near, rows.far)
    };
    let sum = transfer::rows::add_cell(row, lower, below, room[rows.to + i]);
    transfer::rows::add_cell(row, lower + 1, above, sum)
}

// The sum a with cells j and j + 1 of the row under the weights w and v.
fn add_pair(row: &[f64], j: usize, w: f64, v: f64, a: f64) -> f64
    requires { j + 1 < length row.now }
    ensures { result ≡ a ⊕ w ⊗ value row.now j ⊕ v ⊗ value row.now (j + 1) }
{
    a + w * row[j] + v * row[j + 1]
}

// The two fine cells between coarse j and j + 1: the first lies nearer to j, the second to j + 1.
fn give_pair(room: &mut [f64], rows: RowPair, j: usize)
    requires { (rows.from + rows.cells ≤ length room.old) × ((rows.to + (2 * j + 2) < length room.old) × ((j ≤ 16) × (j + 1 < rows.cells))) }
    ensures { room.new ≡ pair_step rows.from rows.cells rows.to rows.far rows.near j room.old }
{
    let end = rows.from + rows.cells;
    let i = rows.to + (2 * j + 1);
    room[i] = add_pair(&room[rows.from..end], j, rows.near, rows.far, room[i]);
    room[i + 1] = add_pair(&room[rows.from..end], j, rows.far, rows.near, room[i + 1]);
}

// The coarse row, added to the sums of the fine cells: the first, then pairs, and the last where it is in no pair.
fn give_row(room: &mut [f64], rows: RowPair)
    requires { Rows rows.from rows.cells rows.to rows.sums room.old × Halves rows.sums rows.cells }
    ensures { room.new ≡ up (row_step two rows.from rows.cells rows.to rows.far rows.near) rows.sums room.old }
{
    room[rows.to] = two_at(&room[..], rows, 0);
    for j in 0..(rows.sums - 1) / 2 {
        give_pair(room, rows, j);
    }
    if rows.sums % 2 == 0 {
        let last = rows.sums - 1;
        room[rows.to + last] = two_at(&room[..], rows, last);
    }
}

// Which of the four that a coarse cell draws along an axis fine x is.
fn drawn_as(x: usize, q: usize) -> usize
    requires { q < 2 }
    ensures { (result ≡ 3 - x % 2 - 2 * q) × (result < 4) }
{
    3 - x % 2 - 2 * q
}

// The r-th of the four coarse rows around the fine row at y, z, where it is in the box.
fn give_coarse(room: &mut [f64], sources: RowSources, r: usize)
    requires { Spread sources.sides sources.cells sources.from sources.to sources.sums sources.along_y sources.along_z room.old × (Halves sources.sums sources.sides.nx × (r < 4)) }
    ensures { room.new ≡ coarse_step sources.sides sources.from sources.to sources.sums sources.along_y sources.along_z r room.old }
{
    let at = grid::place::place(
        sources.sides,
        sources.cells,
        1,
        (sources.along_y + 1) / 2 + r % 2,
        (sources.along_z + 1) / 2 + r / 2,
    );
    if at < sources.cells {
        let j = drawn_as(sources.along_y, r % 2);
        let k = drawn_as(sources.along_z, r / 2);
        let far = transfer::weights::weight(0, j, k);
        let near = transfer::weights::weight(1, j, k);
        let rows = RowPair {
            from: sources.from + at,
            cells: sources.sides.nx as usize,
            to: sources.to,
            sums: sources.sums,
            far,
            near,
        };
        give_row(room, rows);
    }
}

// All four, in ascending order.
fn give_all(room: &mut [f64], sources: RowSources)
    requires { Spread sources.sides sources.cells sources.from sources.to sources.sums sources.along_y sources.along_z room.old × Halves sources.sums sources.sides.nx }
    ensures { room.new ≡ up (coarse_step sources.sides sources.from sources.to sources.sums sources.along_y sources.along_z) 4 room.old }
{
    for r in 0..4 {
        give_coarse(room, sources, r);
    }
}

// The sums of the r-th row of fine cells, from the coarse u into the fine t.
fn sum_row(room: &mut [f64], g: method::Sides, h: method::Sides, n: usize, m: usize, r: usize)
    requires { Sums g h n m room.old × (r < g.ny * g.nz) }
    ensures { Stretch (λ i. given_sum g (take (cells h) (drop (3 * n) room.old)) (g.nx * r + i)) (2 * n + g.nx * r) g.nx room.old room.new }
{
    let nx = g.nx as usize;
    let ny = g.ny as usize;
    let y = r % ny;
    let z = r / ny;
    let o = 2 * n + nx * r;
    rooms::clear_front(&mut room[o..], nx, 0.0);
    let sources = RowSources {
        sides: h,
        cells: m,
        from: 3 * n,
        to: o,
        sums: nx,
        along_y: y,
        along_z: z,
    };
    give_all(room, sources);
}

// The sums of all fine cells.
fn sum_rows(room: &mut [f64], g: method::Sides, h: method::Sides, n: usize, m: usize)
    requires { Sums g h n m room.old }
    ensures { Stretch (given_sum g (take (cells h) (drop (3 * n) room.old))) (2 * n) n room.old room.new }
{
    let rows = (g.ny as usize) * (g.nz as usize);
    for r in 0..rows {
        sum_row(room, g, h, n, m, r);
    }
}

// The corrected value of a cell with this label, value and sum: 0 where it is no air.
fn corrected_value(label: u8, old: f64, sum: f64) -> f64
    ensures { result ≡ plus_at label old sum }
{
    if label == 0 { old + sum / 16.0 } else { 0.0 }
}

// Fine cell c of the fine u, with its sum in t.
fn add_sum(room: &mut [f64], labels: &[u8], c: usize)
    requires { (c < length labels.now) × (3 * length labels.now ≤ length room.old) }
    ensures { room.new ≡ plus_step labels.now c room.old }
{
    let old = room[c];
    let sum = room[2 * labels.len() + c];
    let v = corrected_value(labels[c], old, sum);
    room[c] = v;
}

// All of them.
fn add_sums(room: &mut [f64], labels: &[u8])
    requires { 3 * length labels.now ≤ length room.old }
    ensures { room.new ≡ up (plus_step labels.now) (length labels.now) room.old }
{
    for c in 0..labels.len() {
        add_sum(room, labels, c);
    }
}

// The fine u with the prolongated coarse u added, which is +0.0 off air; t then holds the sums. The room: the fine u, b
// and t, the coarse u, b and t, and more.
pub fn correct(room: &mut [f64], labels: &[u8], below: &[u8], g: method::Sides, h: method::Sides)
    requires two_levels { TwoLevels g h labels.now below.now }
    requires h_in_bounds { 3 * cells g + 3 * cells h ≤ length room.old }
    requires quiet { Quiet h below.now (take (cells h) (drop (3 * cells g) room.old)) }
    ensures { room.new ≡ corrected_room g h labels.now room.old }
{
    sum_rows(room, g, h, labels.len(), below.len());
    add_sums(room, labels);
}
