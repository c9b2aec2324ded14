// How many bytes the two lines of an old session have.
ghost use Rattle.old_put.specs.OldPuts.{OldHeaderLength};

use method::Sides;
use text_out::decimal::digits_of;

// The digits, and 14 for two keys, two separators and two line feeds.
pub fn old_header_length(sides: Sides, unit: u32) -> usize
    ensures { OldHeaderLength sides unit result }
{
    let x = digits_of(u64::from(sides.nx));
    let y = digits_of(u64::from(sides.ny));
    let z = digits_of(u64::from(sides.nz));
    let u = digits_of(u64::from(unit));
    x + y + z + u + 14
}
