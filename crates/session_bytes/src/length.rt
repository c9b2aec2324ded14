// How many bytes a header has.
ghost use Rattle.session_bytes.specs.Lengths.{ThreeDigits, OrderLength, HeaderLength};

use method::{Order, Settings, Sides};
use text_out::decimal::digits_of;

// How many digits three numbers have together.
fn three_digits(a: u32, b: u32, c: u32) -> usize
    ensures { ThreeDigits a b c result }
{
    digits_of(u64::from(a)) + digits_of(u64::from(b)) + digits_of(u64::from(c))
}

// How many bytes the line of the order has.
fn order_length(order: Order) -> usize
    ensures { OrderLength order result }
{
    match order {
        Order::Big => 10,
        Order::Little => 13,
    }
}

// How many bytes the header has: the digits, the line of the order, and 39 for six keys and their line feeds.
pub fn header_length(sides: Sides, order: Order, settings: Settings) -> usize
    ensures { HeaderLength sides order settings result }
{
    let s = three_digits(sides.nx, sides.ny, sides.nz);
    let o = order_length(order);
    let t = three_digits(settings.tolerance, settings.levels, settings.rounds);
    s + o + t + 39
}
