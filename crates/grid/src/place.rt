// Places: a cell's coordinates, and the cell at coordinates counted from one, so that 0 lies just outside.
ghost use Rattle.std.specs.Prelude.{◌≡◌, ◌+◌, ◌*◌, ◌≤◌, ◌<◌};
ghost use Rattle.method.specs.Cast.{cells, number};
ghost use Rattle.theory.specs.Sides.{Fit};
ghost use Rattle.grid.specs.Place.{SpotOf, place_at};

// Kept: that the coordinates are at most 32 (`Near`) stands in contracts. As a ghost field, each spec that makes a Spot
// (`parent_spot`) would have to prove it.
#[derive(Clone, Copy)]
pub struct Spot {
    pub x: usize,
    pub y: usize,
    pub z: usize,
}

// Kept: that sides are in range (`Fit`) stands in contracts. `method::Sides` is also what C and a session hand in, not
// judged yet, and the meaning's words take it: of a type with the fact in it each clause would say `cells g.sides`.

// The number of cells.
pub fn cell_count(g: method::Sides) -> usize
    requires { Fit g }
    ensures { (result ≡ cells g) × (result ≤ 32768) }
{
    (g.nx as usize) * ((g.ny as usize) * (g.nz as usize))
}

// The coordinates of a cell.
pub fn spot_of(g: method::Sides, c: usize) -> Spot
    requires fit { Fit g }
    requires c_bound { c < cells g }
    ensures { SpotOf g c result }
{
    let nx = g.nx as usize;
    let ny = g.ny as usize;
    Spot {
        x: c % nx,
        y: c / nx % ny,
        z: c / nx / ny,
    }
}

// The number of the cell at coordinates in the box.
pub fn number_of(g: method::Sides, x: usize, y: usize, z: usize) -> usize
    requires fit { Fit g }
    requires x_bound { (x < 33) × (y < 33) × (z < 33) }
    ensures { result ≡ number g x y z }
{
    let nx = g.nx as usize;
    let ny = g.ny as usize;
    x + nx * (y + ny * z)
}

// The cell at coordinates that are counted from one, or n, the number of cells, outside the box.
pub fn place(g: method::Sides, n: usize, a: usize, b: usize, e: usize) -> usize
    requires fit { Fit g }
    requires n_value { n ≡ cells g }
    ensures { result ≡ place_at g a b e }
{
    let nx = g.nx as usize;
    let ny = g.ny as usize;
    let nz = g.nz as usize;
    let inside = 0 < a && a <= nx && 0 < b && b <= ny && 0 < e && e <= nz;
    if inside {
        number_of(g, a - 1, b - 1, e - 1)
    } else {
        n
    }
}
