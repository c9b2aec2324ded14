// Jacobi, the residual and A u over entries: no label is read. Off air each field is +0.0 already or is cleared.
ghost use Rattle.std.specs.Prelude.{◌≡◌, List, ◌++◌, ℕ, ◌+◌, ◌*◌, ◌/◌, ◌%◌, ◌≤◌, ◌<◌, length, take, drop};
ghost use Rattle.laws.specs.Binary64.{+0};
ghost use Rattle.method.specs.declared.Sides.{Sides};
ghost use Rattle.method.specs.Cast.{cells};
ghost use Rattle.method.specs.Transfers.{value};
ghost use Rattle.method.specs.Cycle.{applied, jacobi, residue, zeros};
ghost use Rattle.theory.specs.Quiet.{Quiet};
ghost use Rattle.grid.specs.Entries.{cells_of};
ghost use Rattle.smooth.specs.Fields.{u_of, b_of};
ghost use Rattle.smooth.specs.Entries.{Reads, Entry, AllRead, Entries, AirEntries, InCells};
ghost use Rattle.smooth.specs.Written.{write_at, written};
ghost use Rattle.smooth.specs.Stencils.{jacobi_new, first_new, residue_new};

use crate::Lattice;

// A u at an entry's cell, of the field that begins at `from`.
pub fn applied_entry(room: &[f64], from: usize, lattice: Lattice, e: u32) -> f64
    requires reads { Reads lattice.n lattice.nx lattice.plane e }
    requires n_bound { (from + lattice.n ≤ lattice.zero) × (lattice.zero < length room.now) }
    requires zero_value { value room.now lattice.zero ≡ +0 }
    ensures { (g : Sides) (ls : List ℕ) → Entry g ls lattice.n lattice.nx lattice.plane e → result ≡ applied g ls (take (cells g) (drop from room.now)) (e % 32768) }
{
    let c = (e % 32768) as usize;
    let d = (e / 2097152) as f64;
    let part = Lattice {
        zero: lattice.zero - from,
        ..lattice
    };
    let sum = crate::entries::gather(&room[from..], part, e);
    let x = room[from + c];
    d * x - sum
}

// Jacobi at an entry's cell, from the old u in t.
fn jacobi_entry(room: &mut [f64], lattice: Lattice, e: u32)
    requires reads { Reads lattice.n lattice.nx lattice.plane e }
    requires n_bound { (3 * lattice.n ≤ lattice.zero) × (lattice.zero < length room.old) }
    requires zero_value { value room.old lattice.zero ≡ +0 }
    ensures zero_after { value room.new lattice.zero ≡ +0 }
    ensures room_after { (g : Sides) (ls : List ℕ) → Entry g ls lattice.n lattice.nx lattice.plane e → room.new ≡ write_at 0 (jacobi_new g ls) (e % 32768) room.old }
{
    let c = (e % 32768) as usize;
    let d = (e / 2097152) as f64;
    let old = 2 * lattice.n;
    let a = applied_entry(&room[..], old, lattice, e);
    let x = room[old + c];
    let b = room[lattice.n + c];
    room[c] = x + (2.0 / 3.0) * ((b - a) / d);
}

// Jacobi at each entry's cell.
fn jacobi_list(room: &mut [f64], list: &[u32], lattice: Lattice)
    requires all_read { AllRead lattice.n lattice.nx lattice.plane lattice.zero (length room.old) list.now }
    requires zero_value { value room.old lattice.zero ≡ +0 }
    ensures zero_after { value room.new lattice.zero ≡ +0 }
    ensures room_after { (g : Sides) (ls : List ℕ) → Entries g ls lattice.n lattice.nx lattice.plane list.now → room.new ≡ written 0 (jacobi_new g ls) (cells_of list.now) room.old }
{
    for &e in list {
        jacobi_entry(room, lattice, e);
    }
}

// u + (2/3)·((b - A u)/d) into u, all changes from the old u, which is left in t. Off air u is +0.0 and stays so.
pub fn jacobi(room: &mut [f64], list: &[u32], lattice: Lattice)
    requires all_read { AllRead lattice.n lattice.nx lattice.plane lattice.zero (length room.old) list.now }
    requires zero_value { value room.old lattice.zero ≡ +0 }
    ensures zero_after { value room.new lattice.zero ≡ +0 }
    ensures room_after { (g : Sides) (ls : List ℕ) → AirEntries g ls lattice.n lattice.nx lattice.plane list.now → Quiet g ls (u_of (cells g) room.old) → room.new ≡ jacobi g ls (b_of (cells g) room.old) (u_of (cells g) room.old) ++ (b_of (cells g) room.old ++ (u_of (cells g) room.old ++ drop (3 * cells g) room.old)) }
{
    crate::keep_u(room, lattice.n);
    jacobi_list(room, list, lattice);
}

// Jacobi from u = 0 at an entry's cell: b - A u is b.
fn first_entry(room: &mut [f64], n: usize, e: u32)
    requires { (e % 32768 < n) × (2 * n ≤ length room.old) }
    ensures { (g : Sides) (ls : List ℕ) → Entry g ls n g.nx (g.nx * g.ny) e → room.new ≡ write_at 0 (first_new g ls) (e % 32768) room.old }
{
    let c = (e % 32768) as usize;
    let d = (e / 2097152) as f64;
    let b = room[n + c];
    room[c] = 0.0 + (2.0 / 3.0) * (b / d);
}

// Jacobi from u = 0.
pub fn jacobi_first(room: &mut [f64], list: &[u32], n: usize)
    requires in_cells { InCells n list.now }
    requires n_in_bounds { 2 * n ≤ length room.old }
    ensures { (g : Sides) (ls : List ℕ) → AirEntries g ls n g.nx (g.nx * g.ny) list.now → u_of (cells g) room.old ≡ zeros g → room.new ≡ jacobi g ls (b_of (cells g) room.old) (zeros g) ++ drop (cells g) room.old }
{
    for &e in list {
        first_entry(room, n, e);
    }
}

// b - A u at an entry's cell, into t.
fn residual_entry(room: &mut [f64], lattice: Lattice, e: u32)
    requires reads { Reads lattice.n lattice.nx lattice.plane e }
    requires n_bound { (3 * lattice.n ≤ lattice.zero) × (lattice.zero < length room.old) }
    requires zero_value { value room.old lattice.zero ≡ +0 }
    ensures zero_after { value room.new lattice.zero ≡ +0 }
    ensures room_after { (g : Sides) (ls : List ℕ) → Entry g ls lattice.n lattice.nx lattice.plane e → room.new ≡ write_at (2 * lattice.n) (residue_new g ls) (e % 32768) room.old }
{
    let c = (e % 32768) as usize;
    let t = 2 * lattice.n;
    let a = applied_entry(&room[..], 0, lattice, e);
    let b = room[lattice.n + c];
    room[t + c] = b - a;
}

// b - A u at each entry's cell, into t.
fn residual_list(room: &mut [f64], list: &[u32], lattice: Lattice)
    requires all_read { AllRead lattice.n lattice.nx lattice.plane lattice.zero (length room.old) list.now }
    requires zero_value { value room.old lattice.zero ≡ +0 }
    ensures zero_after { value room.new lattice.zero ≡ +0 }
    ensures room_after { (g : Sides) (ls : List ℕ) → Entries g ls lattice.n lattice.nx lattice.plane list.now → room.new ≡ written (2 * lattice.n) (residue_new g ls) (cells_of list.now) room.old }
{
    for &e in list {
        residual_entry(room, lattice, e);
    }
}

// b - A u into t, which is cleared first.
pub fn residual(room: &mut [f64], list: &[u32], lattice: Lattice)
    requires all_read { AllRead lattice.n lattice.nx lattice.plane lattice.zero (length room.old) list.now }
    requires zero_value { value room.old lattice.zero ≡ +0 }
    ensures zero_after { value room.new lattice.zero ≡ +0 }
    ensures room_after { (g : Sides) (ls : List ℕ) → AirEntries g ls lattice.n lattice.nx lattice.plane list.now → room.new ≡ u_of (cells g) room.old ++ (b_of (cells g) room.old ++ (residue g ls (b_of (cells g) room.old) (u_of (cells g) room.old) ++ drop (3 * cells g) room.old)) }
{
    rooms::clear_front(&mut room[2 * lattice.n..], lattice.n, 0.0);
    residual_list(room, list, lattice);
}
