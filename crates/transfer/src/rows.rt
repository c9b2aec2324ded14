// What both transfers do to a row: which two rows, which source field, and a sum with one cell of a source row more.
ghost use Rattle.std.specs.Prelude.{◌≡◌};
ghost use Rattle.transfer.specs.Rows.{row_term};

// A source row and a target row of one room, and the weights under which the one is added to the other.
#[derive(Clone, Copy)]
pub struct RowPair {
    // where the source row begins
    pub from: usize,
    // how many cells it has
    pub cells: usize,
    // where the target row begins, which holds sums
    pub to: usize,
    // how many sums it has
    pub sums: usize,
    // the weight of a source cell that lies farther from the target cell
    pub far: f64,
    // of one that lies nearer
    pub near: f64,
}

// The source field of one level around a target row of the other, whose rows are added to that row one by one.
#[derive(Clone, Copy)]
pub struct RowSources {
    // the sides of the source field's box
    pub sides: method::Sides,
    // how many cells it has
    pub cells: usize,
    // where the source field begins
    pub from: usize,
    // where the target row begins, which holds sums
    pub to: usize,
    // how many sums it has
    pub sums: usize,
    // where the target row lies in its own box along y
    pub along_y: usize,
    // and along z
    pub along_z: usize,
}

// The sum a with the row's cell p, counted from one, where it is in the row.
pub fn add_cell(row: &[f64], p: usize, w: f64, a: f64) -> f64
    ensures { result ≡ row_term row.now p w a }
{
    if p == 0 {
        return a;
    }
    if p <= row.len() {
        a + w * row[p - 1]
    } else {
        a
    }
}
