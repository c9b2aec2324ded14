// Restriction, a row of coarse cells at a time: the sixteen fine rows in ascending order, each added to all coarse
// cells of the row. What isn't air holds +0.0 and adds nothing, so no fine label is read; then each sum over 512 where
// the coarse cell is air.
#![tactic(auto)]

ghost use Rattle.std.specs.Prelude.{◌≡◌, ◌+◌, ◌*◌, ◌/◌, ◌%◌, ◌≤◌, ◌<◌, length, take, drop};
ghost use Rattle.laws.specs.Loops.{up};
ghost use Rattle.method.specs.Cast.{cells};
ghost use Rattle.method.specs.Transfers.{value};
ghost use Rattle.theory.specs.Quiet.{Quiet};
ghost use Rattle.transfer.specs.Transfer.{TwoLevels, restricted_room};
ghost use Rattle.transfer.specs.Rows.{Stretch, four, row_step, Rows, Halves, Spread, fine_step, Sums, drawn_sum, over_at, over_step};

use transfer::rows::{RowPair, RowSources};

// The sum of coarse cell i with its four cells of the fine row.
fn four_at(room: &[f64], rows: RowPair, i: usize) -> f64
    requires { (rows.from + rows.cells ≤ length room.now) × ((rows.to + i < length room.now) × (i ≤ 16)) }
    ensures { result ≡ four (take rows.cells (drop rows.from room.now)) rows.far rows.near i (value room.now (rows.to + i)) }
{
    let row = &room[rows.from..rows.from + rows.cells];
    let first = transfer::rows::add_cell(row, 2 * i, rows.far, room[rows.to + i]);
    let second = transfer::rows::add_cell(row, 2 * i + 1, rows.near, first);
    let third = transfer::rows::add_cell(row, 2 * i + 2, rows.near, second);
    transfer::rows::add_cell(row, 2 * i + 3, rows.far, third)
}

// The same where all four are in the row.
fn four_inside(room: &[f64], rows: RowPair, i: usize) -> f64
    requires in_bounds { (rows.from + rows.cells ≤ length room.now) × ((rows.to + i < length room.now) × (i ≤ 16)) }
    requires inside { (0 < i) × (2 * i + 3 ≤ rows.cells) }
    ensures { result ≡ four (take rows.cells (drop rows.from room.now)) rows.far rows.near i (value room.now (rows.to + i)) }
{
    let row = &room[rows.from..rows.from + rows.cells];
    let at = 2 * i;
    let sum = room[rows.to + i];
    sum + rows.far * row[at - 1]
        + rows.near * row[at]
        + rows.near * row[at + 1]
        + rows.far * row[at + 2]
}

// The fine row, added to the coarse cells: the first and the last may lack cells of the four, those between have all.
fn draw_row(room: &mut [f64], rows: RowPair)
    requires { Rows rows.from rows.cells rows.to rows.sums room.old × Halves rows.cells rows.sums }
    ensures { room.new ≡ up (row_step four rows.from rows.cells rows.to rows.far rows.near) rows.sums room.old }
{
    let last = rows.sums - 1;
    room[rows.to] = four_at(&room[..], rows, 0);
    for i in 1..last {
        room[rows.to + i] = four_inside(&room[..], rows, i);
    }
    if 0 < last {
        room[rows.to + last] = four_at(&room[..], rows, last);
    }
}

// The r-th of the sixteen fine rows around the coarse row at y, z, where it is in the box.
fn draw_fine(room: &mut [f64], sources: RowSources, r: usize)
    requires { Spread sources.sides sources.cells sources.from sources.to sources.sums sources.along_y sources.along_z room.old × (Halves sources.sides.nx sources.sums × (r < 16)) }
    ensures { room.new ≡ fine_step sources.sides sources.from sources.to sources.sums sources.along_y sources.along_z r room.old }
{
    let at = grid::place::place(
        sources.sides,
        sources.cells,
        1,
        2 * sources.along_y + r % 4,
        2 * sources.along_z + r / 4,
    );
    if at < sources.cells {
        let far = transfer::weights::weight(0, r % 4, r / 4);
        let near = transfer::weights::weight(1, r % 4, r / 4);
        let rows = RowPair {
            from: sources.from + at,
            cells: sources.sides.nx as usize,
            to: sources.to,
            sums: sources.sums,
            far,
            near,
        };
        draw_row(room, rows);
    }
}

// All sixteen, in ascending order.
fn draw_all(room: &mut [f64], sources: RowSources)
    requires { Spread sources.sides sources.cells sources.from sources.to sources.sums sources.along_y sources.along_z room.old × Halves sources.sides.nx sources.sums }
    ensures { room.new ≡ up (fine_step sources.sides sources.from sources.to sources.sums sources.along_y sources.along_z) 16 room.old }
{
    for r in 0..16 {
        draw_fine(room, sources, r);
    }
}

// The sums of the r-th row of coarse cells, from the fine t into the coarse b.
fn sum_row(room: &mut [f64], g: method::Sides, h: method::Sides, n: usize, m: usize, r: usize)
    requires { Sums g h n m room.old × (r < h.ny * h.nz) }
    ensures { Stretch (λ i. drawn_sum g (take (cells g) (drop (2 * n) room.old)) (h.nx * r + i)) (3 * n + m + h.nx * r) h.nx room.old room.new }
{
    let mx = h.nx as usize;
    let my = h.ny as usize;
    let y = r % my;
    let z = r / my;
    let o = 3 * n + m + mx * r;
    rooms::clear_front(&mut room[o..], mx, 0.0);
    let sources = RowSources {
        sides: g,
        cells: n,
        from: 2 * n,
        to: o,
        sums: mx,
        along_y: y,
        along_z: z,
    };
    draw_all(room, sources);
}

// The sums of all coarse cells.
fn sum_rows(room: &mut [f64], g: method::Sides, h: method::Sides, n: usize, m: usize)
    requires { Sums g h n m room.old }
    ensures { Stretch (drawn_sum g (take (cells g) (drop (2 * n) room.old))) (3 * n + m) m room.old room.new }
{
    let rows = (h.ny as usize) * (h.nz as usize);
    for r in 0..rows {
        sum_row(room, g, h, n, m, r);
    }
}

// The restricted value of a cell with this label and sum: 0 where it is no air.
fn restricted_value(label: u8, sum: f64) -> f64
    ensures { result ≡ over_at label sum }
{
    if label == 0 { sum / 512.0 } else { 0.0 }
}

// Coarse cell c of the sums at o.
fn end_sum(room: &mut [f64], below: &[u8], o: usize, c: usize)
    requires { (c < length below.now) × (o + length below.now ≤ length room.old) }
    ensures { room.new ≡ over_step below.now o c room.old }
{
    let sum = room[o + c];
    let v = restricted_value(below[c], sum);
    room[o + c] = v;
}

// All of them.
fn end_sums(room: &mut [f64], below: &[u8], o: usize)
    requires { o + length below.now ≤ length room.old }
    ensures { room.new ≡ up (over_step below.now o) (length below.now) room.old }
{
    for c in 0..below.len() {
        end_sum(room, below, o, c);
    }
}

// The coarse b becomes the restricted fine t, which is +0.0 off air. The room: the fine u, b and t, the coarse u, b and
// t, and more.
pub fn restrict(room: &mut [f64], labels: &[u8], below: &[u8], g: method::Sides, h: method::Sides)
    requires two_levels { TwoLevels g h labels.now below.now }
    requires h_in_bounds { 3 * cells g + 3 * cells h ≤ length room.old }
    requires quiet { Quiet g labels.now (take (cells g) (drop (2 * cells g) room.old)) }
    ensures { room.new ≡ restricted_room g h labels.now room.old }
{
    let n = labels.len();
    let m = below.len();
    sum_rows(room, g, h, n, m);
    end_sums(room, below, 3 * n + m);
}
