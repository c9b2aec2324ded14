// Check 13: whether a value is a multiple of the unit that fits 16 bits.
ghost use Rattle.std.specs.Prelude.{◌≡◌, ◌<◌, ◌≤◌, length};
ghost use Rattle.method.specs.Cast.{first};
ghost use Rattle.method.specs.OldForm.{expressible as OldForm·expressible};
ghost use Rattle.old_write.specs.OldWrites.{inexpressible};

use search::first_where;

// Whether a value is expressible: by its size, since a quotient of a negative number is cut towards zero.
fn expressible(v: i32, unit: u32) -> bool
    requires { 0 < unit }
    ensures { result ≡ OldForm·expressible unit v }
{
    let size = v.unsigned_abs();
    if size % unit != 0 {
        return false;
    }
    let units = size / unit;
    if v < 0 { units <= 32768 } else { units < 32768 }
}

// Whether the value of a cell is not expressible.
fn inexpressible_at(values: &[i32], unit: u32, c: usize) -> bool
    requires { (0 < unit) × (c < length values.now) }
    ensures { result ≡ inexpressible unit values.now c }
{
    !expressible(values[c], unit)
}

// The first of n cells whose value is not expressible.
pub(crate) fn first_inexpressible(values: &[i32], n: usize, unit: u32) -> Option<u32>
    requires { (0 < unit) × ((n ≤ 32768) × (n ≤ length values.now)) }
    ensures { result ≡ first (inexpressible unit values.now) n }
{
    first_where(n, |c| inexpressible_at(values, unit, c))
}
