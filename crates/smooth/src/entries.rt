// Gauss-Seidel over entries: no label is read, and nothing is divided by a side.
ghost use Rattle.std.specs.Prelude.{◌≡◌, List, ◌++◌, ℕ, ◌+◌, ◌-◌, ◌*◌, ◌/◌, ◌%◌, ◌≤◌, ◌<◌, length, drop};
ghost use Rattle.laws.specs.Binary64.{+0};
ghost use Rattle.method.specs.declared.Sides.{Sides};
ghost use Rattle.method.specs.Cast.{cells, is_air};
ghost use Rattle.method.specs.Transfers.{value};
ghost use Rattle.method.specs.Cycle.{air_sum, relaxed};
ghost use Rattle.smooth.specs.Fields.{u_of, b_of};
ghost use Rattle.smooth.specs.Sweeps.{swept_up, swept_down};
ghost use Rattle.grid.specs.Entries.{cells_of};
ghost use Rattle.smooth.specs.Entries.{picked, Reads, Entry, AllRead, Entries};

use crate::Lattice;

// The place of the neighbour one step back where its bit is set, else of the zero.
fn pick_back(e: u32, unit: u32, c: usize, step: usize, zero: usize) -> usize
    requires { (0 < unit) × ((e / unit % 2 ≡ 1 → step ≤ c) × (c < zero)) }
    ensures value { result ≡ picked (e / unit % 2) (c - step) zero }
    ensures upper_bound { result ≤ zero }
{
    if e / unit % 2 == 1 { c - step } else { zero }
}

// The same one step on.
// Kept: beside pick_back, since a step back asks that it fits below the cell and a step on that it fits above it.
fn pick_on(e: u32, unit: u32, c: usize, step: usize, zero: usize) -> usize
    requires { (0 < unit) × (e / unit % 2 ≡ 1 → c + step < zero) }
    ensures value { result ≡ picked (e / unit % 2) (c + step) zero }
    ensures upper_bound { result ≤ zero }
{
    if e / unit % 2 == 1 { c + step } else { zero }
}

// The sum of the air neighbours of an entry's cell: six elements, of which those that stand for no air cell are the
// zero.
pub(crate) fn gather(room: &[f64], lattice: Lattice, e: u32) -> f64
    requires reads { Reads lattice.n lattice.nx lattice.plane e }
    requires n_le_zero { (lattice.n ≤ lattice.zero) × (lattice.zero < length room.now) }
    requires zero_value { value room.now lattice.zero ≡ +0 }
    ensures { (g : Sides) (ls : List ℕ) → Entry g ls lattice.n lattice.nx lattice.plane e → result ≡ air_sum g ls room.now (e % 32768) }
{
    let c = (e % 32768) as usize;
    let zero = lattice.zero;
    let west = pick_back(e, 32768, c, 1, zero);
    let east = pick_on(e, 65536, c, 1, zero);
    let south = pick_back(e, 131072, c, lattice.nx, zero);
    let north = pick_on(e, 262144, c, lattice.nx, zero);
    let below = pick_back(e, 524288, c, lattice.plane, zero);
    let above = pick_on(e, 1048576, c, lattice.plane, zero);
    0.0 + room[west] + room[east] + room[south] + room[north] + room[below] + room[above]
}

// Gauss-Seidel at an entry's cell: u becomes u + (b - A u)/d.
fn relax_entry(room: &mut [f64], lattice: Lattice, e: u32)
    requires reads { Reads lattice.n lattice.nx lattice.plane e }
    requires n_bound { (3 * lattice.n ≤ lattice.zero) × (lattice.zero < length room.old) }
    requires zero_value { value room.old lattice.zero ≡ +0 }
    ensures zero_after { value room.new lattice.zero ≡ +0 }
    ensures room_after { (g : Sides) (ls : List ℕ) → Entry g ls lattice.n lattice.nx lattice.plane e → room.new ≡ relaxed g ls (is_air ls) (b_of (cells g) room.old) (e % 32768) (u_of (cells g) room.old) ++ drop (cells g) room.old }
{
    let c = (e % 32768) as usize;
    // Kept: `as` in the solver's innermost steps, where a call of `f64::from` says the same.
    let d = (e / 2097152) as f64;
    let sum = gather(&room[..], lattice, e);
    let x = room[c];
    let b = room[lattice.n + c];
    room[c] = x + (b - (d * x - sum)) / d;
}

// Gauss-Seidel at each entry's cell, in the list's order.
pub fn sweep_up(room: &mut [f64], list: &[u32], lattice: Lattice)
    requires all_read { AllRead lattice.n lattice.nx lattice.plane lattice.zero (length room.old) list.now }
    requires zero_value { value room.old lattice.zero ≡ +0 }
    ensures zero_after { value room.new lattice.zero ≡ +0 }
    ensures room_after { (g : Sides) (ls : List ℕ) → Entries g ls lattice.n lattice.nx lattice.plane list.now → room.new ≡ swept_up g ls (cells_of list.now) (b_of (cells g) room.old) (u_of (cells g) room.old) ++ drop (cells g) room.old }
{
    for &e in list {
        relax_entry(room, lattice, e);
    }
}

// The same against the list's order.
pub fn sweep_down(room: &mut [f64], list: &[u32], lattice: Lattice)
    requires all_read { AllRead lattice.n lattice.nx lattice.plane lattice.zero (length room.old) list.now }
    requires zero_value { value room.old lattice.zero ≡ +0 }
    ensures zero_after { value room.new lattice.zero ≡ +0 }
    ensures room_after { (g : Sides) (ls : List ℕ) → Entries g ls lattice.n lattice.nx lattice.plane list.now → room.new ≡ swept_down g ls (cells_of list.now) (b_of (cells g) room.old) (u_of (cells g) room.old) ++ drop (cells g) room.old }
{
    for &e in list.iter().rev() {
        relax_entry(room, lattice, e);
    }
}
