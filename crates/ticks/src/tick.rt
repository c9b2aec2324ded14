// A binary64 to the nearest whole tick, halves to the even tick, and a tick as a binary64.
ghost use Rattle.std.specs.Prelude.{◌≡◌, ◌+◌, ◌^◌, ◌≤◌, true, false, if◌then◌else◌, unsigned_abs};
ghost use Rattle.std.specs.Float.Ieee.{lt};
ghost use Rattle.laws.specs.Binary64.{+0, ofℤ};
ghost use Rattle.method.specs.Ticks.{tie, kept, tick, whole_of};
ghost use Rattle.ticks.specs.TickSize.{beyond, size};

// The furthest tick either way, 2^41.
const FURTHEST: u64 = 2199023255552;

// What lies half way between low and the next number, to the even one of the two.
fn tie_of(low: u64) -> u64
    requires { low ≤ 2 ^ 42 }
    ensures { result ≡ tie low }
{
    let even = low % 2 == 0;
    if even { low } else { low + 1 }
}

// The next number where the test passes: a choice between two numbers, and no branch.
fn raised(low: u64, up: bool) -> u64
    requires { low ≤ 2 ^ 42 }
    ensures { result ≡ (if up then low + 1 else low) }
{
    if up { low + 1 } else { low }
}

// The whole number nearest to y, which is above zero and below 2^42: y lies below, above or at its whole part and a
// half. Below and above are as likely, so the one branch is for what lies on it.
fn rounded(y: f64) -> u64
    requires y_value { lt +0 y ≡ true }
    requires beyond_value { lt y beyond ≡ true }
    ensures { result ≡ size y }
{
    let q = std::num::truncating_f64_to_u64(y);
    let half = (q as f64) + 0.5;
    let above = half < y;
    if (y < half) | above {
        return raised(q, above);
    }
    tie_of(q)
}

// The same for every y above zero: 2^42 stands for what lies beyond it.
fn size_of(y: f64) -> u64
    requires { lt +0 y ≡ true }
    ensures { result ≡ size y }
{
    if y < 4398046511104.0 {
        rounded(y)
    } else {
        4398046511104
    }
}

// The tick of size n and that sign, where it is kept.
fn kept_of(negative: bool, n: u64) -> Option<i64>
    ensures { result ≡ kept negative n }
{
    if FURTHEST < n {
        return None;
    }
    if negative {
        return Some(-(n as i64));
    }
    Some(n as i64)
}

// The tick of any binary64: the nearest whole number, halves to the even one, within 2^41 either way; a NaN and an
// infinity have none.
pub fn to_tick(x: f64) -> Option<i64>
    ensures { result ≡ tick x }
{
    if x < 0.0 {
        return kept_of(true, size_of(-x));
    }
    if 0.0 < x {
        return kept_of(false, size_of(x));
    }
    if x == 0.0 {
        return Some(0);
    }
    None
}

// A tick as a binary64: exact, so that to_tick gives it back.
pub fn whole_float(z: i64) -> f64
    requires { unsigned_abs z ≤ 2 ^ 41 }
    ensures { result ≡ ofℤ z }
{
    z as f64
}

// The tick that a binary64 holds, and 0 where it holds none.
pub fn whole_back(x: f64) -> i64
    ensures { result ≡ whole_of (tick x) }
{
    to_tick(x).unwrap_or(0)
}
