// The same fields with no label read: A p over entries, and dots and updates over all cells, where the fields are +0.0
// off air.
ghost use Rattle.std.specs.Prelude.{◌≡◌, true, List, ◌++◌, ℕ, ◌+◌, ◌*◌, ◌%◌, ◌≤◌, ◌<◌, length, take, drop};
ghost use Rattle.laws.specs.Binary64.{◌⊕◌, ◌⊖◌, ◌⊗◌, +0};
ghost use Rattle.method.specs.declared.Sides.{Sides};
ghost use Rattle.method.specs.Cast.{cells};
ghost use Rattle.method.specs.Transfers.{value, in_air};
ghost use Rattle.method.specs.Cycle.{applied};
ghost use Rattle.method.specs.Rounds.{dot, finite};
ghost use Rattle.theory.specs.Quiet.{Quiet};
ghost use Rattle.grid.specs.Entries.{cells_of};
ghost use Rattle.smooth.specs.Entries.{Reads, Entry, AllRead, Entries, AirEntries, InCells};
ghost use Rattle.smooth.specs.Written.{write_at, written};
ghost use Rattle.cg_fields.specs.Fields.{x_of, p_of, z_of, r_of, t_of};
ghost use Rattle.cg_fields.specs.Entries.{applied_new, aim_new, Aimed};

use smooth::Lattice;

// The dot product of two fields that are +0.0 off air, from +0.0, ascending.
pub fn dot(a: &[f64], b: &[f64], n: usize) -> f64
    requires { (n ≤ length a.now) × (n ≤ length b.now) }
    ensures { (g : Sides) (ls : List ℕ) → n ≡ cells g → Quiet g ls a.now → Quiet g ls b.now → result ≡ dot g ls (value a.now) (value b.now) }
{
    let mut sum = 0.0;
    for c in 0..n {
        sum = sum + a[c] * b[c];
    }
    sum
}

// A p at an entry's cell, into t.
fn apply_entry(room: &mut [f64], lattice: Lattice, e: u32)
    requires reads { Reads lattice.n lattice.nx lattice.plane e }
    requires n_bound { (5 * lattice.n ≤ lattice.zero) × (lattice.zero < length room.old) }
    requires zero_value { value room.old lattice.zero ≡ +0 }
    ensures zero_after { value room.new lattice.zero ≡ +0 }
    ensures room_after { (g : Sides) (ls : List ℕ) → Entry g ls lattice.n lattice.nx lattice.plane e → room.new ≡ write_at (4 * lattice.n) (applied_new g ls) (e % 32768) room.old }
{
    let c = (e % 32768) as usize;
    let p = 1 * lattice.n;
    let t = 4 * lattice.n;
    let a = smooth::stencils::applied_entry(&room[..], p, lattice, e);
    room[t + c] = a;
}

// A p at each entry's cell, into t.
fn apply_list(room: &mut [f64], list: &[u32], lattice: Lattice)
    requires all_read { AllRead lattice.n lattice.nx lattice.plane lattice.zero (length room.old) list.now }
    requires n_bound { 5 * lattice.n ≤ lattice.zero }
    requires zero_value { value room.old lattice.zero ≡ +0 }
    ensures zero_after { value room.new lattice.zero ≡ +0 }
    ensures room_after { (g : Sides) (ls : List ℕ) → Entries g ls lattice.n lattice.nx lattice.plane list.now → room.new ≡ written (4 * lattice.n) (applied_new g ls) (cells_of list.now) room.old }
{
    for &e in list {
        apply_entry(room, lattice, e);
    }
}

// A p into t, which is cleared first.
pub fn apply(room: &mut [f64], list: &[u32], lattice: Lattice)
    requires all_read { AllRead lattice.n lattice.nx lattice.plane lattice.zero (length room.old) list.now }
    requires n_bound { 5 * lattice.n ≤ lattice.zero }
    requires zero_value { value room.old lattice.zero ≡ +0 }
    ensures zero_after { value room.new lattice.zero ≡ +0 }
    ensures room_after { (g : Sides) (ls : List ℕ) → AirEntries g ls lattice.n lattice.nx lattice.plane list.now → room.new ≡ take (4 * cells g) room.old ++ (in_air g ls (applied g ls (p_of (cells g) room.old)) ++ drop (5 * cells g) room.old) }
{
    rooms::clear_front(&mut room[4 * lattice.n..], lattice.n, 0.0);
    apply_list(room, list, lattice);
}

// x + alpha·p into x, alpha finite: off air both are +0.0, and the sum is +0.0.
pub fn advance(room: &mut [f64], n: usize, alpha: f64)
    requires alpha_value { finite alpha ≡ true }
    requires n_in_bounds { 5 * n ≤ length room.old }
    ensures { (g : Sides) (ls : List ℕ) → n ≡ cells g → Quiet g ls (x_of (cells g) room.old) → Quiet g ls (p_of (cells g) room.old) → room.new ≡ in_air g ls (λ c. value (x_of (cells g) room.old) c ⊕ alpha ⊗ value (p_of (cells g) room.old) c) ++ drop (cells g) room.old }
{
    for c in 0..n {
        let x = room[c];
        let p = room[n + c];
        room[c] = x + alpha * p;
    }
}

// r - alpha·t into r, where t holds A p, and alpha is finite.
pub fn reduce(room: &mut [f64], n: usize, alpha: f64)
    requires alpha_value { finite alpha ≡ true }
    requires n_in_bounds { 5 * n ≤ length room.old }
    ensures { (g : Sides) (ls : List ℕ) → n ≡ cells g → Quiet g ls (r_of (cells g) room.old) → Quiet g ls (t_of (cells g) room.old) → room.new ≡ take (3 * cells g) room.old ++ (in_air g ls (λ c. value (r_of (cells g) room.old) c ⊖ alpha ⊗ value (t_of (cells g) room.old) c) ++ drop (4 * cells g) room.old) }
{
    let at = 3 * n;
    let held = 4 * n;
    for c in 0..n {
        let r = room[at + c];
        let t = room[held + c];
        room[at + c] = r - alpha * t;
    }
}

// Whether a number is neither infinite nor a NaN.
pub fn is_finite(x: f64) -> bool
    ensures { result ≡ finite x }
{
    x.is_finite()
}

// The new direction at every cell, into p, beta finite: off air z and p are +0.0, and so is what they make.
fn aim_all(room: &mut [f64], n: usize, done: u32, beta: f64)
    requires beta_value { finite beta ≡ true }
    requires n_in_bounds { 5 * n ≤ length room.old }
    ensures { (g : Sides) (ls : List ℕ) → n ≡ cells g → Quiet g ls (z_of (cells g) room.old) → Quiet g ls (p_of (cells g) room.old) → Aimed g ls done beta room.old room.new }
{
    let from = 2 * n;
    for c in 0..n {
        let z = room[from + c];
        let p = room[n + c];
        room[n + c] = crate::direction_of(done, beta, z, p);
    }
}

// The new direction at an entry's cell, into t.
fn aim_entry(room: &mut [f64], n: usize, done: u32, beta: f64, e: u32)
    requires { (e % 32768 < n) × (5 * n ≤ length room.old) }
    ensures { room.new ≡ write_at (4 * n) (aim_new n done beta) (e % 32768) room.old }
{
    let c = (e % 32768) as usize;
    let from = 2 * n;
    let to = 4 * n;
    let z = room[from + c];
    let p = room[n + c];
    room[to + c] = crate::direction_of(done, beta, z, p);
}

// The new direction at each entry's cell, into t.
fn aim_list(room: &mut [f64], list: &[u32], n: usize, done: u32, beta: f64)
    requires in_cells { InCells n list.now }
    requires n_in_bounds { 5 * n ≤ length room.old }
    ensures { room.new ≡ written (4 * n) (aim_new n done beta) (cells_of list.now) room.old }
{
    for &e in list {
        aim_entry(room, n, done, beta, e);
    }
}

// t goes to p.
fn take_t(room: &mut [f64], n: usize)
    requires { 5 * n ≤ length room.old }
    ensures { room.new ≡ take n room.old ++ (t_of n room.old ++ drop (n + n) room.old) }
{
    room.copy_within(4 * n..5 * n, n);
}

// The new direction into p by way of t, whatever beta is: an infinite beta makes a NaN of what isn't air, so only
// entries' cells are written.
fn aim_by_list(room: &mut [f64], list: &[u32], n: usize, done: u32, beta: f64)
    requires in_cells { InCells n list.now }
    requires n_in_bounds { 5 * n ≤ length room.old }
    ensures { (g : Sides) (ls : List ℕ) → AirEntries g ls n g.nx (g.nx * g.ny) list.now → Aimed g ls done beta room.old room.new }
{
    rooms::clear_front(&mut room[4 * n..], n, 0.0);
    aim_list(room, list, n, done, beta);
    take_t(room, n);
}

// The new direction into p: z in the first round, later z + beta·p. t is scratch.
pub fn aim(room: &mut [f64], list: &[u32], n: usize, done: u32, beta: f64)
    requires in_cells { InCells n list.now }
    requires n_in_bounds { 5 * n ≤ length room.old }
    ensures { (g : Sides) (ls : List ℕ) → AirEntries g ls n g.nx (g.nx * g.ny) list.now → Quiet g ls (z_of (cells g) room.old) → Quiet g ls (p_of (cells g) room.old) → Aimed g ls done beta room.old room.new }
{
    if is_finite(beta) {
        aim_all(room, n, done, beta);
    } else {
        aim_by_list(room, list, n, done, beta);
    }
}
