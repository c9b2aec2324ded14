// What a round of conjugate gradients does to the fields, in a room that holds x, p, z, r and t, one element a cell
// each, and what follows: the start, and the direction at one cell.
#![tactic(auto)]

ghost use Rattle.std.specs.Prelude.{◌≡◌, ◌++◌, ◌*◌, ◌<◌, length, take, drop};
ghost use Rattle.method.specs.Cast.{cells};
ghost use Rattle.method.specs.Cycle.{zeros};
ghost use Rattle.method.specs.Rounds.{direction, right_side};
ghost use Rattle.cg_fields.specs.Fields.{z_of, Held};
ghost use Rattle.cg_fields.specs.Turns.{load_turn};

pub mod entries;

// The direction at one cell: z in the first round, later z + beta·p.
pub(crate) fn direction_of(done: u32, beta: f64, z: f64, p: f64) -> f64
    ensures { result ≡ direction done beta z p }
{
    let first = done == 0;
    if first { z } else { z + beta * p }
}

// b at one cell, into r.
fn load_at(room: &mut [f64], labels: &[u8], values: &[i32], g: method::Sides, c: usize)
    requires held { Held g labels.now room.old }
    requires values_len { (length values.now ≡ cells g) × (c < cells g) }
    ensures { room.new ≡ load_turn g labels.now values.now c room.old }
{
    let r = 3 * labels.len() + c;
    if labels[c] == 0 {
        room[r] = right_side::right_at(labels, values, g, c);
    } else {
        room[r] = 0.0;
    }
}

// b into r.
fn load(room: &mut [f64], labels: &[u8], values: &[i32], g: method::Sides)
    requires held { Held g labels.now room.old }
    requires values_len { length values.now ≡ cells g }
    ensures { room.new ≡ take (3 * cells g) room.old ++ (right_side (record { sides = g; labels = labels.now; values = values.now }) ++ drop (4 * cells g) room.old) }
{
    for c in 0..labels.len() {
        load_at(room, labels, values, g, c);
    }
}

// Before the first round: x and p are zero, r is b.
pub fn start(room: &mut [f64], labels: &[u8], values: &[i32], g: method::Sides)
    requires held { Held g labels.now room.old }
    requires values_len { length values.now ≡ cells g }
    ensures { room.new ≡ zeros g ++ (zeros g ++ (z_of (cells g) room.old ++ (right_side (record { sides = g; labels = labels.now; values = values.now }) ++ drop (4 * cells g) room.old))) }
{
    rooms::clear_front(room, 2 * labels.len(), 0.0);
    load(room, labels, values, g);
}
