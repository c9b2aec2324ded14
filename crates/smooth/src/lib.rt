// One level of the V-cycle in binary64: sweeps, Jacobi and the residual on a room that holds the fields u, b and t, one
// element a cell each, and what follows. Openings count as zero.
#![tactic(auto)]

ghost use Rattle.std.specs.Prelude.{◌≡◌, ◌++◌, ◌-◌, ◌*◌, ◌≤◌, ◌<◌, length, take, drop};
ghost use Rattle.method.specs.Cast.{cells};
ghost use Rattle.method.specs.Cycle.{zeros};
ghost use Rattle.theory.specs.Sides.{Fit};

pub mod entries;
pub mod stencils;

// What the kernels over entries know of a level: its cells' number, how far their neighbours stand, and a zero's place.
#[derive(Clone, Copy)]
pub struct Lattice {
    // how many elements a field has, one a cell
    pub n: usize,
    // how many elements a step along y is; one along x is one
    pub nx: usize,
    // how many a step along z is
    pub plane: usize,
    // where the zero stands that is read for a neighbour that is no air
    pub zero: usize,
}

impl Lattice {
    // Of a box with these sides and n cells, in a room of that length whose last element is the zero.
    pub fn of(g: method::Sides, n: usize, length: usize) -> Lattice
        requires fit { Fit g }
        requires some { 0 < length }
        ensures { result ≡ record { n = n; nx = g.nx; plane = g.nx * g.ny; zero = length - 1 } }
    {
        let nx = g.nx as usize;
        let plane = nx * (g.ny as usize);
        Lattice {
            n,
            nx,
            plane,
            zero: length - 1,
        }
    }
}

// The old u goes to t.
pub(crate) fn keep_u(room: &mut [f64], n: usize)
    requires { 3 * n ≤ length room.old }
    ensures { room.new ≡ take (2 * n) room.old ++ (take n room.old ++ drop (3 * n) room.old) }
{
    room.copy_within(0..n, 2 * n);
}

// u becomes zero.
pub fn clear_u(room: &mut [f64], g: method::Sides)
    requires fit { Fit g }
    requires g_in_bounds { cells g ≤ length room.old }
    ensures { room.new ≡ zeros g ++ drop (cells g) room.old }
{
    rooms::clear_front(room, grid::place::cell_count(g), 0.0);
}
