// The weights 1, 3, 3, 1 along each axis, multiplied where they are used.
ghost use Rattle.std.specs.Prelude.{◌≡◌, ◌≤◌, ◌<◌};
ghost use Rattle.laws.specs.Binary64.{ofℕ};
ghost use Rattle.method.specs.Transfers.{axis_weight};
ghost use Rattle.transfer.specs.Transfer.{weight_of};

// The weight of the q-th of the four along an axis: the two in the middle have 3.
fn axis(q: usize) -> u32
    requires { q < 4 }
    ensures { (result ≡ axis_weight q) × (result ≤ 3) }
{
    if (q + 1) / 2 == 1 { 3 } else { 1 }
}

// The product over the three axes, in whole numbers: exact.
fn product(i: usize, j: usize, k: usize) -> u32
    requires { (i < 4) × ((j < 4) × (k < 4)) }
    ensures { result ≡ weight_of i j k }
{
    let x = axis(i);
    let y = axis(j);
    let z = axis(k);
    x * (y * z)
}

// The same as a binary64.
pub fn weight(i: usize, j: usize, k: usize) -> f64
    requires { (i < 4) × ((j < 4) × (k < 4)) }
    ensures { result ≡ ofℕ (weight_of i j k) }
{
    f64::from(product(i, j, k))
}
