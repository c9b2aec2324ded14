// The exact residual in whole ticks, for pressures within 2^41, from its four numbers.
#![tactic(auto)]

pub mod tick;

ghost use Rattle.std.specs.Prelude.{◌≡◌, ◌^◌, ◌≤◌, pos, unsigned_abs};
ghost use Rattle.laws.specs.Whole.{◌+ᶻ◌, ◌-ᶻ◌, ◌*ᶻ◌};

// Of the cells across a cell's faces: how many are no walls, and the sum of their pressures.
#[derive(Clone, Copy)]
pub struct Faces {
    pub d: u32,
    pub sum: i64,
}

// The residual, from its four numbers.
pub fn residual_of(source: i64, sum: i64, d: u32, own: i64) -> i64
    requires { (unsigned_abs source ≤ 2 ^ 31) × ((unsigned_abs sum ≤ 2 ^ 44) × ((d ≤ 6) × (unsigned_abs own ≤ 2 ^ 41))) }
    ensures { result ≡ source +ᶻ sum -ᶻ pos d *ᶻ own }
{
    signed_numbers::minus(
        signed_numbers::plus(source, sum),
        signed_numbers::times(d, own),
    )
}
