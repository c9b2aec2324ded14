// Values of four bytes: read in the order that the session names, checked, stored.
#![tactic(auto)]

ghost use Rattle.std.specs.Prelude.{◌≡◌, ℕ, ℤ, [], ◌∷◌, ◌+◌, ◌*◌, ◌≤◌, ◌<◌, length, take, drop};
ghost use Rattle.laws.specs.Lists.{tab};
ghost use Rattle.method.specs.Rooms.{filled};
ghost use Rattle.method.specs.Cast.{first};
ghost use Rattle.method.specs.Form.{in_order, most_first, twos_complement, word_of};
ghost use Rattle.session_values.specs.Body.{bad_value_in, value_in};

use checks::cast::out_of_range;
use method::Order;
use search::first_where;

// A word from its bytes, the most significant first.
pub fn word(a: u8, b: u8, c: u8, d: u8) -> u32
    ensures { result ≡ most_first 0 (a ∷ b ∷ c ∷ d ∷ []) }
{
    u32::from_be_bytes([a, b, c, d])
}

// The word at a place, in the order that the session names.
fn word_at(bytes: &[u8], at: usize, order: Order) -> u32
    requires { at + 4 ≤ length bytes.now }
    ensures { result ≡ most_first 0 (in_order order (take 4 (drop at bytes.now))) }
{
    let a = bytes[at];
    let b = bytes[at + 1];
    let c = bytes[at + 2];
    let d = bytes[at + 3];
    match order {
        Order::Big => word(a, b, c, d),
        Order::Little => word(d, c, b, a),
    }
}

// A word as a signed number, in two's complement.
pub fn signed(w: u32) -> i32
    ensures { result ≡ twos_complement w }
{
    w.cast_signed()
}

// A signed number as a word.
pub fn word_of(v: i32) -> u32
    ensures { result ≡ word_of v }
{
    v.cast_unsigned()
}

// The value of cell c of a body of n cells.
fn value_at(body: &[u8], n: usize, order: Order, c: usize) -> i32
    requires { (c < n) × (5 * n ≤ length body.now) }
    ensures { result ≡ value_in body.now n order c }
{
    let w = word_at(body, n + 4 * c, order);
    signed(w)
}

// Whether the value of cell c of a body of n cells is out of its label's range.
fn bad_value_at(body: &[u8], n: usize, order: Order, c: usize) -> bool
    requires { (c < n) × (5 * n ≤ length body.now) }
    ensures { result ≡ bad_value_in body.now n order c }
{
    let label = body[c];
    let v = value_at(body, n, order, c);
    out_of_range(label, v)
}

// The first cell of a body of n cells whose value is out of its label's range.
pub fn bad_value(body: &[u8], n: usize, order: Order) -> Option<u32>
    requires { (n ≤ 32768) × (5 * n ≤ length body.now) }
    ensures { result ≡ first (bad_value_in body.now n order) n }
{
    first_where(n, |c| bad_value_at(body, n, order, c))
}

// The first n values are stored, each as a function gives it for its cell.
pub fn store_first<F: Fn(usize) -> i32>(values: &mut [i32], n: usize, value: F)
    requires room { n ≤ length values.old }
    requires callable { (c : ℕ) → c < n → F.pre value c }
    ensures { (t : ℕ → ℤ) → ((c : ℕ) → (v : ℤ) → c < n → F.post value c v → v ≡ t c) → values.new ≡ filled n (tab n t) values.old }
{
    for c in 0..n {
        values[c] = value(c);
    }
}

// All values of a body of n cells, stored.
pub fn store_values(body: &[u8], n: usize, order: Order, values: &mut [i32])
    requires { (n ≤ length values.old) × (5 * n ≤ length body.now) }
    ensures { values.new ≡ filled n (tab n (value_in body.now n order)) values.old }
{
    store_first(values, n, |c| value_at(body, n, order, c));
}
