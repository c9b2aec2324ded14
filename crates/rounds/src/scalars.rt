// The four scalars of a round, and the step that they allow.
ghost use Rattle.std.specs.Prelude.{◌≡◌, ◌+◌, ◌*◌, ◌≤◌, length, take, drop};
ghost use Rattle.method.specs.Cast.{cells};
ghost use Rattle.method.specs.Transfers.{value};
ghost use Rattle.method.specs.Rounds.{dot, beta_of, usable, step};
ghost use Rattle.theory.specs.Quiet.{Quiet};
ghost use Rattle.cg_fields.specs.Fields.{Held, p_of, z_of, r_of};
ghost use Rattle.cg_fields.specs.Entries.{Aimed};
ghost use Rattle.rounds.specs.Rounds.{below, plan_sides, plan_labels, Prepared, Planned, Calm, Drawn, Rho, Applied, Sigma, Scaled};

use crate::Plan;
use cg_fields::entries::is_finite;
use method::{Scalars, Sides};
use smooth::Lattice;

// Kept: room, bytes, words, plan, labels and sides go from function to function, since a struct of them holds a `&`: each `ensures` would speak of
// its fields as they were at the entry.

// Whether a number is finite and above 0.
#[tactic(auto, unfolding(method::specs::Rounds::usable, method::specs::Rounds::finite))]
fn is_usable(x: f64) -> bool
    ensures { result ≡ usable x }
{
    is_finite(x) && 0.0 < x
}

// Alpha, or the first scalar that stalls the round: rho and sigma must be finite and above 0, alpha finite.
#[tactic(auto, unfolding(method::specs::Rounds::step))]
pub(crate) fn step_of(q: Scalars) -> Result<f64, f64>
    ensures { result ≡ step q }
{
    if !is_usable(q.rho) {
        return Err(q.rho);
    }
    if !is_usable(q.sigma) {
        return Err(q.sigma);
    }
    if !is_finite(q.alpha) {
        return Err(q.alpha);
    }
    Ok(q.alpha)
}

// New rho over old rho; the first round has none.
fn beta_of(done: u32, new: f64, old: f64) -> f64
    ensures { result ≡ beta_of done new old }
{
    if done == 0 { 0.0 } else { new / old }
}

// The product of the fields at two places of the room, over air cells: off air both are zero.
fn inner(room: &[f64], labels: &[u8], g: Sides, a: usize, b: usize) -> f64
    requires held { Held g labels.now room.now × ((a ≤ 4 * cells g) × (b ≤ 4 * cells g)) }
    requires quiet { Quiet g labels.now (take (cells g) (drop a room.now)) }
    requires quiet_2 { Quiet g labels.now (take (cells g) (drop b room.now)) }
    ensures { result ≡ dot g labels.now (value (take (cells g) (drop a room.now))) (value (take (cells g) (drop b room.now))) }
{
    let n = labels.len();
    let c = a + n;
    let d = b + n;
    cg_fields::entries::dot(&room[a..c], &room[b..d], n)
}

// z = cycle(r): the cycle is lent the room from z on, whose last element is spare and becomes the zero that entries
// read.
fn precondition(room: &mut [f64], bytes: &[u8], words: &[u32], plan: Plan, n: usize)
    requires { Prepared plan bytes.now words.now n (length room.old) }
    ensures { Drawn (plan_sides plan) (plan_labels plan bytes.now) (below plan) n room.old room.new }
{
    let l = plan.levels;
    let s = plan.lists;
    let count = plan.count;
    cycle::end_in_zero(room);
    let from = 2 * n;
    cycle::cycle(&mut room[from..], bytes, words, l, s, count, 0);
}

// z, and rho = z·r.
fn rho_of(room: &mut [f64], bytes: &[u8], words: &[u32], plan: Plan, labels: &[u8], g: Sides) -> f64
    requires planned { Planned plan bytes.now words.now g labels.now (length room.old) }
    requires quiet { Quiet g labels.now (r_of (cells g) room.old) }
    ensures { Rho g labels.now (below plan) room.old result room.new }
{
    let n = labels.len();
    precondition(room, bytes, words, plan, n);
    inner(&room[..], labels, g, 2 * n, 3 * n)
}

// A p in t, over the entries of all air, which read the zero at the room's end.
fn apply(room: &mut [f64], bytes: &[u8], words: &[u32], plan: Plan, labels: &[u8], g: Sides)
    requires { Planned plan bytes.now words.now g labels.now (length room.old) }
    ensures { Applied g labels.now room.old room.new }
{
    let s = plan.lists;
    let air = cycle::level_air(words, s, 0);
    let lattice = Lattice::of(g, labels.len(), room.len());
    cycle::end_in_zero(room);
    cg_fields::entries::apply(room, air, lattice);
}

// A p in t, and sigma = p·A p.
fn sigma_of(
    room: &mut [f64],
    bytes: &[u8],
    words: &[u32],
    plan: Plan,
    labels: &[u8],
    g: Sides,
) -> f64
    requires planned { Planned plan bytes.now words.now g labels.now (length room.old) }
    requires quiet { Quiet g labels.now (p_of (cells g) room.old) }
    ensures { Sigma g labels.now room.old result room.new }
{
    apply(room, bytes, words, plan, labels, g);
    let n = labels.len();
    inner(&room[..], labels, g, n, 4 * n)
}

// The new direction into p.
fn aim(
    room: &mut [f64],
    bytes: &[u8],
    words: &[u32],
    plan: Plan,
    labels: &[u8],
    g: Sides,
    done: u32,
    beta: f64,
)
    requires planned { Planned plan bytes.now words.now g labels.now (length room.old) }
    requires quiet { Quiet g labels.now (z_of (cells g) room.old) }
    requires quiet_2 { Quiet g labels.now (p_of (cells g) room.old) }
    ensures { Aimed g labels.now done beta room.old room.new }
{
    let s = plan.lists;
    let air = cycle::level_air(words, s, 0);
    let n = labels.len();
    cg_fields::entries::aim(room, air, n, done, beta);
}

// A round's z, rho, beta, p, A p, sigma and alpha.
pub(crate) fn scalars_of(
    room: &mut [f64],
    bytes: &[u8],
    words: &[u32],
    plan: Plan,
    labels: &[u8],
    g: Sides,
    done: u32,
    old: f64,
) -> Scalars
    requires planned { Planned plan bytes.now words.now g labels.now (length room.old) }
    requires calm { Calm g labels.now room.old }
    ensures { Scaled g labels.now (below plan) done old room.old result room.new }
{
    let rho = rho_of(room, bytes, words, plan, labels, g);
    let beta = beta_of(done, rho, old);
    aim(room, bytes, words, plan, labels, g, done, beta);
    let sigma = sigma_of(room, bytes, words, plan, labels, g);
    Scalars {
        rho,
        sigma,
        alpha: rho / sigma,
        beta,
    }
}
