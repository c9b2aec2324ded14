// The rounds of conjugate gradients with the V-cycle as preconditioner (document 01, "The rounds"). The binary64 room
// holds x | p | z r t | and the coarser levels' fields; the cycle works on the room from z on, with z r t as its u b t.
#![tactic(auto)]

mod scalars;

ghost use Rattle.std.specs.Prelude.{◌≡◌, ◌*◌, ◌≤◌, ◌<◌, length, true};
ghost use Rattle.method.specs.Cast.{cells};
ghost use Rattle.method.specs.Rounds.{finite};
ghost use Rattle.theory.specs.Quiet.{Quiet};
ghost use Rattle.cg_fields.specs.Fields.{Held, x_of, t_of};
ghost use Rattle.acceptance.specs.Trial.{tested};
ghost use Rattle.rounds.specs.Rounds.{cast_of, Calm, Advanced, Ready, RunOf, EndOf};

use answers::{Halt, Passed};
use bands::lists::Lists;
use levels::sides::Levels;
use method::{Settings, Sides};
use scalars::{scalars_of, step_of};

// What a cycle needs beside its rooms: where the levels and their lists stand, and how many levels are used.
#[derive(Clone, Copy)]
pub struct Plan {
    pub levels: Levels,
    pub lists: Lists,
    pub count: usize,
}

// The test of x as it stands in the room: on its rounded ticks, not on r.
fn test_x(room: &[f64], labels: &[u8], values: &[i32], g: Sides, settings: Settings) -> Option<u32>
    requires { Held g labels.now room.now × ((length values.now ≡ cells g) × (settings.tolerance ≤ 1000000)) }
    ensures { result ≡ tested (cast_of g labels.now values.now) settings (x_of (cells g) room.now) }
{
    let n = labels.len();
    let x = 0 * n;
    acceptance::test(g, labels, values, &room[x..x + n], settings)
}

// x + alpha·p, r - alpha·A p, with A p in t.
fn move_on(room: &mut [f64], labels: &[u8], g: Sides, alpha: f64)
    requires held { Held g labels.now room.old }
    requires alpha_value { finite alpha ≡ true }
    requires calm { Calm g labels.now room.old }
    requires quiet { Quiet g labels.now (t_of (cells g) room.old) }
    ensures { Advanced g labels.now alpha room.old room.new }
{
    let n = labels.len();
    cg_fields::entries::advance(room, n, alpha);
    cg_fields::entries::reduce(room, n, alpha);
}

// The rounds, from the room of the start: as many as the limit allows, each after a test, and a last test.
fn rounds(
    room: &mut [f64],
    bytes: &[u8],
    words: &[u32],
    plan: Plan,
    labels: &[u8],
    values: &[i32],
    settings: Settings,
    g: Sides,
) -> Result<Passed, Halt>
    requires ready { Ready g labels.now values.now settings plan bytes.now words.now (length room.old) }
    requires calm { Calm g labels.now room.old }
    ensures { RunOf g labels.now values.now settings room.old result room.new }
{
    let rounds = settings.rounds;
    let mut rho = 0.0;
    for done in 0..rounds {
        if let Some(worst) = test_x(&room[..], labels, values, g, settings) {
            return Ok(Passed {
                rounds: done,
                worst,
            });
        }
        let q = scalars_of(room, bytes, words, plan, labels, g, done, rho);
        match step_of(q) {
            Err(_) => return Err(Halt::Stalled(done)),
            Ok(alpha) => move_on(room, labels, g, alpha),
        }
        rho = q.rho;
    }
    match test_x(&room[..], labels, values, g, settings) {
        Some(worst) => Ok(Passed { rounds, worst }),
        None => Err(Halt::LimitReached(rounds)),
    }
}

// The rounds from x = 0 and r = b: how they end, and the x of the last test in the room.
pub fn run(
    room: &mut [f64],
    bytes: &[u8],
    words: &[u32],
    plan: Plan,
    labels: &[u8],
    values: &[i32],
    settings: Settings,
    g: Sides,
) -> Result<Passed, Halt>
    requires { Ready g labels.now values.now settings plan bytes.now words.now (length room.old) }
    ensures { EndOf g labels.now values.now settings result room.new }
{
    cg_fields::start(room, labels, values, g);
    rounds(room, bytes, words, plan, labels, values, settings, g)
}
