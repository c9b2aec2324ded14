// The checks of sizes that ask for nothing: they hold for any sides that a header may name.
ghost use Rattle.std.specs.Prelude.{◌≡◌, ◌*◌, eqb, leb};
ghost use Rattle.method.specs.Cast.{cells};
ghost use Rattle.answers.specs.declared.Fault.TheVariants.{WrongLength, BadBody};
ghost use Rattle.checks.specs.Rulings.{unless};
ghost use Rattle.session_read.specs.Reads.{size_ruling};

use answers::Fault;
use checks::cast::unless;
use method::Sides;

// Whether a number is the product of two, which may be too large to be had.
fn is_product(n: usize, a: usize, b: usize) -> bool
    ensures { result ≡ eqb n (a * b) }
{
    match a.checked_mul(b) {
        Some(product) => n == product,
        None => false,
    }
}

// Whether so many bytes are 5 a cell.
fn body_fits(sides: Sides, left: usize) -> bool
    ensures { result ≡ eqb left (5 * cells sides) }
{
    let nx = sides.nx as usize;
    let ny = sides.ny as usize;
    let nz = sides.nz as usize;
    is_product(left, 5 * nx, ny * nz)
}

// Check 2, of n cells and a slice of so many values.
pub(crate) fn judge_second(n: usize, room: usize) -> Result<(), Fault>
    ensures { result ≡ unless WrongLength (leb n room) }
{
    unless(Fault::WrongLength, n <= room)
}

// Check 11, of how many bytes the body has.
fn judge_eleventh(sides: Sides, left: usize) -> Result<(), Fault>
    ensures { result ≡ unless BadBody (eqb left (5 * cells sides)) }
{
    unless(Fault::BadBody, body_fits(sides, left))
}

// Checks 1 and 11, of the sides and how many bytes the body has.
pub(crate) fn judge_sides(sides: Sides, left: usize) -> Result<(), Fault>
    ensures { result ≡ size_ruling sides left }
{
    checks::cast::judge_sides(sides)?;
    judge_eleventh(sides, left)
}
