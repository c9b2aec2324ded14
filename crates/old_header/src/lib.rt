// The header of an old session: the line of its size and that of its unit (document 02, wish 2).
#![tactic(auto)]

ghost use Rattle.std.specs.Prelude.{◌≡◌};
ghost use Rattle.method.specs.OldForm.{unit_fits};
ghost use Rattle.old_header.specs.OldLines.{SizeOf, OldHeaderOf};

use method::Sides;
use session_header::line::{number_to, rest};

// The line of the size, where it is of the form: the sides and how many bytes it took.
#[derive(Clone, Copy)]
struct Size {
    sides: Sides,
    taken: usize,
}

// What the two lines name, and where the body starts.
#[derive(Clone, Copy)]
pub struct OldHeader {
    pub sides: Sides,
    pub unit: u32,
    pub start: usize,
}

// The line of the size: three numbers, with an x between them.
fn size_line(bytes: &[u8]) -> Option<Size>
    ensures { SizeOf bytes.now result }
{
    let nx = number_to(bytes, b"size=", b'x')?;
    let second = rest(bytes, nx.taken);
    let ny = number_to(second, b"", b'x')?;
    let third = rest(second, ny.taken);
    let nz = number_to(third, b"", b'\n')?;
    let sides = Sides {
        nx: nx.value,
        ny: ny.value,
        nz: nz.value,
    };
    Some(Size {
        sides,
        taken: nx.taken + ny.taken + nz.taken,
    })
}

// The two lines, from the front of the bytes, or the number of the first that is not of the form.
pub fn read_old_header(bytes: &[u8]) -> Result<OldHeader, u32>
    ensures { OldHeaderOf bytes.now result }
{
    let size = size_line(bytes).ok_or(1u32)?;
    let second = rest(bytes, size.taken);
    let unit = number_to(second, b"unit=", b'\n').ok_or(2u32)?;
    Ok(OldHeader {
        sides: size.sides,
        unit: unit.value,
        start: size.taken + unit.taken,
    })
}

// Whether a unit is 1 to 1,000.
pub fn unit_fits(unit: u32) -> bool
    ensures { result ≡ unit_fits unit }
{
    1 <= unit && unit <= 1000
}
