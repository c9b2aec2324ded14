// Where the cells across a cell's faces stand, and what a label reads as.
ghost use Rattle.std.specs.Prelude.{◌≡◌, ◌+◌, ◌^◌, ◌<◌};
ghost use Rattle.method.specs.Cast.{cells, label_at, back, on, around};
ghost use Rattle.theory.specs.Sides.{Fit};

// The label of cell j; outside is wall.
pub fn label_at(labels: &[u8], j: usize) -> u8
    ensures { result ≡ label_at labels.now j }
{
    if j < labels.len() { labels[j] } else { 2 }
}

// One step back along an axis, or n where there is none.
pub fn step_back(n: usize, stride: usize, side: usize, c: usize) -> usize
    requires { (0 < stride) × (0 < side) }
    ensures { result ≡ back n (record { stride = stride; side = side }) c }
{
    if 0 < c / stride % side { c - stride } else { n }
}

// One step on.
pub fn step_on(n: usize, stride: usize, side: usize, c: usize) -> usize
    requires { (0 < stride) × ((0 < side) × (c + stride < 2 ^ 64)) }
    ensures { result ≡ on n (record { stride = stride; side = side }) c }
{
    if c / stride % side + 1 < side {
        c + stride
    } else {
        n
    }
}

// The six cells across c's faces, in the order -x, +x, -y, +y, -z, +z; n is outside.
pub fn neighbours(g: method::Sides, n: usize, c: usize) -> [usize; 6]
    requires fit { Fit g }
    requires n_value { (n ≡ cells g) × (c < cells g) }
    ensures { result ≡ around g c }
{
    let nx = g.nx as usize;
    let ny = g.ny as usize;
    let nz = g.nz as usize;
    let plane = nx * ny;
    let west = step_back(n, 1, nx, c);
    let east = step_on(n, 1, nx, c);
    let south = step_back(n, nx, ny, c);
    let north = step_on(n, nx, ny, c);
    let below = step_back(n, plane, nz, c);
    let above = step_on(n, plane, nz, c);
    [west, east, south, north, below, above]
}
