// The search for distances: from the openings outwards, each cell once, in a lent room of marks and a queue.
// The marks come first, one for each cell: 0, or one more than the cell's distance. The queue of cells comes after
// them.
#![tactic(auto)]

ghost use Rattle.std.specs.Prelude.{◌≡◌, ◌∷◌, [], ◌<◌, ◌≤◌, length};
ghost use Rattle.laws.specs.Loops.{up};
ghost use Rattle.method.specs.Cast.{cells, is_air, is_opening, around, first};
ghost use Rattle.distances.specs.Search.{queue, reach, reach_all, sideways, turn, start, searched, deeper, lost, Safe, Moved, Reaches, Held, Roomy, Measured};

use grid::near::{step_back, step_on};
use rooms::clear_front;
use search::first_where;

// Kept: the queue is a part of the room with its length `tail` beside it, since the room is lent, one for marks and
// queue, and nothing is allocated.

// What the walks of a cast come to.
#[derive(Clone, Copy)]
pub struct Walked {
    // the greatest distance of an air cell
    pub depth: u32,
    // the first air cell with no walk to an opening
    pub sealed: Option<u32>,
}

// Cell j, reached from a mark m, enters the queue where it has no mark yet. The number of cells in the queue.
fn reach_cell(room: &mut [u32], n: usize, j: usize, m: u32, tail: usize) -> usize
    requires { Safe n (queue room.old tail) × ((j < n) × (m ≤ tail)) }
    ensures { Moved n (queue room.old tail) (reach n m j (queue room.old tail)) (queue room.new result) }
{
    if room[j] == 0 {
        room[j] = m + 1;
        room[n + tail] = j as u32;
        return tail + 1;
    }
    tail
}

// The same for a neighbour, where it is air.
fn reach_air(room: &mut [u32], labels: &[u8], j: usize, m: u32, tail: usize) -> usize
    requires { Safe (length labels.now) (queue room.old tail) × (m ≤ tail) }
    ensures { Reaches labels.now m (j ∷ []) (queue room.old tail) (queue room.new result) }
{
    if j < labels.len() {
        let air = labels[j] == 0;
        if air {
            return reach_cell(room, labels.len(), j, m, tail);
        }
    }
    tail
}

// The two neighbours of cell c along an axis.
fn reach_along(
    room: &mut [u32],
    labels: &[u8],
    c: usize,
    stride: usize,
    side: usize,
    m: u32,
    tail: usize,
) -> usize
    requires safe { Safe (length labels.now) (queue room.old tail) × ((m ≤ tail) × (c < length labels.now)) }
    requires stride_nonzero { (0 < stride) × ((stride ≤ 1024) × (0 < side)) }
    ensures { Reaches labels.now m (sideways (length labels.now) (record { stride = stride; side = side }) c) (queue room.old tail) (queue room.new result) }
{
    let before = step_back(labels.len(), stride, side, c);
    let more = reach_air(room, labels, before, m, tail);
    let after = step_on(labels.len(), stride, side, c);
    reach_air(room, labels, after, m, more)
}

// The six neighbours of cell c.
fn spread(room: &mut [u32], labels: &[u8], g: method::Sides, c: usize, m: u32, tail: usize) -> usize
    requires { Held g labels.now (queue room.old tail) × ((m ≤ tail) × (c < cells g)) }
    ensures { Moved (cells g) (queue room.old tail) (reach_all (cells g) (is_air labels.now) m (around g c) (queue room.old tail)) (queue room.new result) }
{
    let nx = g.nx as usize;
    let ny = g.ny as usize;
    let nz = g.nz as usize;
    let x = reach_along(room, labels, c, 1, nx, m, tail);
    let y = reach_along(room, labels, c, nx, ny, m, x);
    reach_along(room, labels, c, nx * ny, nz, m, y)
}

// A turn: from the cell at the head of the queue, where there is one.
fn take_turn(room: &mut [u32], labels: &[u8], g: method::Sides, head: usize, tail: usize) -> usize
    requires { Held g labels.now (queue room.old tail) × (head < cells g) }
    ensures { Moved (cells g) (queue room.old tail) (turn (cells g) (is_air labels.now) (around g) head (queue room.old tail)) (queue room.new result) }
{
    if head < tail {
        let c = room[labels.len() + head] as usize;
        let m = room[c];
        return spread(room, labels, g, c, m, tail);
    }
    tail
}

// As many turns as there are cells: no queue is longer.
fn flood(room: &mut [u32], labels: &[u8], g: method::Sides, started: usize) -> usize
    requires { Held g labels.now (queue room.old started) }
    ensures { queue room.new result ≡ up (turn (cells g) (is_air labels.now) (around g)) (cells g) (queue room.old started) }
{
    let mut tail = started;
    for head in 0..labels.len() {
        tail = take_turn(room, labels, g, head, tail);
    }
    tail
}

// An opening enters the queue with the mark 1.
fn start_at(room: &mut [u32], labels: &[u8], i: usize, tail: usize) -> usize
    requires { Safe (length labels.now) (queue room.old tail) × (i < length labels.now) }
    ensures { Moved (length labels.now) (queue room.old tail) (start (length labels.now) (is_opening labels.now) i (queue room.old tail)) (queue room.new result) }
{
    if labels[i] == 1 {
        return reach_cell(room, labels.len(), i, 0, tail);
    }
    tail
}

// All openings.
fn start_all(room: &mut [u32], labels: &[u8]) -> usize
    requires { Safe (length labels.now) (queue room.old 0) }
    ensures { Moved (length labels.now) (queue room.old 0) (up (start (length labels.now) (is_opening labels.now)) (length labels.now) (queue room.old 0)) (queue room.new result) }
{
    let mut tail = 0;
    for i in 0..labels.len() {
        tail = start_at(room, labels, i, tail);
    }
    tail
}

// The whole search.
fn search(room: &mut [u32], labels: &[u8], g: method::Sides)
    requires { Roomy g labels.now room.old }
    ensures { room.new ≡ (searched g labels.now room.old).room }
{
    clear_front(room, labels.len(), 0);
    let tail = start_all(room, labels);
    flood(room, labels, g, tail);
}

// The greater of d and the distance of cell i, where it is air.
fn deeper_at(room: &[u32], labels: &[u8], i: usize, d: u32) -> u32
    requires { (i < length labels.now) × (i < length room.now) }
    ensures { result ≡ deeper labels.now room.now i d }
{
    if labels[i] == 0 {
        let m = room[i];
        if 0 < m {
            if d < m - 1 {
                return m - 1;
            }
        }
    }
    d
}

// The greatest distance of an air cell.
fn deepest(room: &[u32], labels: &[u8]) -> u32
    requires { length labels.now ≤ length room.now }
    ensures { result ≡ up (deeper labels.now room.now) (length labels.now) 0 }
{
    let mut d = 0;
    for i in 0..labels.len() {
        d = deeper_at(room, labels, i, d);
    }
    d
}

// Whether cell i is air with no mark.
fn is_lost(room: &[u32], labels: &[u8], i: usize) -> bool
    requires { (i < length labels.now) × (i < length room.now) }
    ensures { result ≡ lost labels.now room.now i }
{
    labels[i] == 0 && room[i] == 0
}

// The first air cell with no mark.
fn first_lost(room: &[u32], labels: &[u8]) -> Option<u32>
    requires { (length labels.now ≤ length room.now) × (length labels.now ≤ 32768) }
    ensures { result ≡ first (lost labels.now room.now) (length labels.now) }
{
    first_where(labels.len(), |c| is_lost(room, labels, c))
}

// The search, and what it finds. The room keeps the marks: `searched`.
pub fn distances(room: &mut [u32], labels: &[u8], g: method::Sides) -> Walked
    requires { Roomy g labels.now room.old }
    ensures { Measured g labels.now room.old room.new result }
{
    search(room, labels, g);
    Walked {
        depth: deepest(room, labels),
        sealed: first_lost(room, labels),
    }
}
