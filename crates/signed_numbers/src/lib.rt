// The few operations on i64 through which all signed sums go. Their contracts speak of whole numbers and of sizes, so
// that no caller meets the bits.
#![tactic(auto)]

ghost use Rattle.std.specs.Prelude.{◌≡◌, ◌+◌, ◌^◌, ◌<◌, ◌≤◌, pos, nat_abs};
ghost use Rattle.laws.specs.Whole.{◌+ᶻ◌, ◌-ᶻ◌, ◌*ᶻ◌};

pub fn plus(a: i64, b: i64) -> i64
    requires { nat_abs a + nat_abs b < 2 ^ 63 }
    ensures { result ≡ a +ᶻ b }
{
    a + b
}

pub fn minus(a: i64, b: i64) -> i64
    requires { nat_abs a + nat_abs b < 2 ^ 63 }
    ensures { result ≡ a -ᶻ b }
{
    a - b
}

// A number of neighbours, at most 6, times a number that is small enough.
pub fn times(d: u32, a: i64) -> i64
    requires { (d ≤ 6) × (nat_abs a ≤ 2 ^ 42) }
    ensures { result ≡ pos d *ᶻ a }
{
    i64::from(d) * a
}
