// The header of a session: its seven lines (document 01, "The session form").
#![tactic(auto)]

pub mod line;

ghost use Rattle.std.specs.Prelude.{◌≡◌, ◌≤◌, length};
ghost use Rattle.method.specs.Form.{order_of};
ghost use Rattle.session_header.specs.Lines.{ThreeOf, OnFrom, HeaderOf};

use line::{number_line, order_line, rest};
use method::{Order, Settings, Sides};

// A line that is of the form: its value and how many bytes it took.
#[derive(Clone, Copy)]
pub struct Read {
    pub value: u32,
    pub taken: usize,
}

// Three lines of numbers that are of the form: their values and how many bytes they took.
#[derive(Clone, Copy)]
struct Three {
    x: u32,
    y: u32,
    z: u32,
    taken: usize,
}

// What the seven lines name, and where the body starts.
#[derive(Clone, Copy)]
pub struct Header {
    pub sides: Sides,
    pub order: Order,
    pub settings: Settings,
    pub start: usize,
}

// Three lines of numbers, the first of which has the number `first`, or the number of the first that is not of the form.
// Kept: the `u32` of an error is that line, which is the place of the one fault that lines have, and no kind of fault.
fn three_lines(bytes: &[u8], first: u32, a: &[u8], b: &[u8], c: &[u8]) -> Result<Three, u32>
    requires { first ≤ 5 }
    ensures { ThreeOf first a.now b.now c.now bytes.now result }
{
    let x = number_line(bytes, a).ok_or(first)?;
    let second = rest(bytes, x.taken);
    let y = number_line(second, b).ok_or(first + 1)?;
    let third = rest(second, y.taken);
    let z = number_line(third, c).ok_or(first + 2)?;
    Ok(Three {
        x: x.value,
        y: y.value,
        z: z.value,
        taken: x.taken + y.taken + z.taken,
    })
}

// The order that the value of its line stands for.
// Kept: a `From` for `Order` would have to stand in crate method, which holds the meaning and no code.
pub fn order_of(v: u32) -> Order
    ensures { result ≡ order_of v }
{
    if v == 0 { Order::Big } else { Order::Little }
}

// The line of the order and those of the settings, after the sides and the i bytes that they took.
fn after_sides(bytes: &[u8], i: usize, sides: Sides) -> Result<Header, u32>
    requires { i ≤ length bytes.now }
    ensures { OnFrom bytes.now i sides result }
{
    let fourth = rest(bytes, i);
    let o = order_line(fourth).ok_or(4u32)?;
    let fifth = rest(fourth, o.taken);
    let three = three_lines(fifth, 5, b"tolerance=", b"levels=", b"rounds=")?;
    let order = order_of(o.value);
    let settings = Settings {
        tolerance: three.x,
        levels: three.y,
        rounds: three.z,
    };
    Ok(Header {
        sides,
        order,
        settings,
        start: i + o.taken + three.taken,
    })
}

// The seven lines, from the front of the bytes, or the number of the first that is not of the form.
pub fn read_header(bytes: &[u8]) -> Result<Header, u32>
    ensures { HeaderOf bytes.now result }
{
    let three = three_lines(bytes, 1, b"nx=", b"ny=", b"nz=")?;
    let sides = Sides {
        nx: three.x,
        ny: three.y,
        nz: three.z,
    };
    after_sides(bytes, three.taken, sides)
}
