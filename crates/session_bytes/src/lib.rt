// The bytes of a session, put into a lent output: header, labels, values.
#![tactic(auto)]

pub mod length;

ghost use Rattle.std.specs.Prelude.{◌≡◌, ◌<◌, ◌≤◌, ◌/◌, ◌%◌, length};
ghost use Rattle.laws.specs.Text.{text};
ghost use Rattle.method.specs.Form.{line, order_word, header_written, value_written, written};
ghost use Rattle.text_out.specs.Puts.{Put, Room, Puts};
ghost use Rattle.session_bytes.specs.Lengths.{three_lines};

use method::{Order, Settings, Sides};
use session_values::word_of;
use text_out::{Form, Sink};

// Puts the line of the order.
fn put_order(sink: &mut Sink<'_>, order: Order)
    requires { Room (length (line (text "order=") (order_word order))) sink.old }
    ensures { Puts (line (text "order=") (order_word order)) sink.old sink.new }
{
    match order {
        Order::Big => sink.put(b"order=big\n"),
        Order::Little => sink.put(b"order=little\n"),
    }
}

// Puts three lines of numbers.
pub fn put_three(sink: &mut Sink<'_>, a: &[u8], x: u32, b: &[u8], y: u32, c: &[u8], z: u32)
    requires { Room (length (three_lines a.now x b.now y c.now z)) sink.old }
    ensures { Puts (three_lines a.now x b.now y c.now z) sink.old sink.new }
{
    sink.put_line(a, u64::from(x));
    sink.put_line(b, u64::from(y));
    sink.put_line(c, u64::from(z));
}

// Puts the seven lines.
fn put_header(sink: &mut Sink<'_>, sides: Sides, order: Order, settings: Settings)
    requires { Room (length (header_written sides order settings)) sink.old }
    ensures { Puts (header_written sides order settings) sink.old sink.new }
{
    put_three(sink, b"nx=", sides.nx, b"ny=", sides.ny, b"nz=", sides.nz);
    put_order(sink, order);
    put_three(
        sink,
        b"tolerance=",
        settings.tolerance,
        b"levels=",
        settings.levels,
        b"rounds=",
        settings.rounds,
    );
}

// The byte of a word that stands k bytes above the least, with `unit` 256 to the k.
pub fn byte_of(w: u32, unit: u32) -> u8
    requires { 0 < unit }
    ensures { result ≡ w / unit % 256 }
{
    (w / unit % 256) as u8
}

// A value is put as its four bytes, in the order that the session names.
#[derive(Clone, Copy, Drop)]
struct InOrder(Order);

impl Form<i32> for InOrder {
    ghost word = { λ s v. value_written s.0 v };

    ghost most = { λ s. 4 };

    fn put(&self, sink: &mut Sink<'_>, v: i32) {
        let w = word_of(v);
        let bytes = match self.0 {
            Order::Big => w.to_be_bytes(),
            Order::Little => w.to_le_bytes(),
        };
        sink.put(&bytes);
    }
}

// Puts a whole session at the front, and answers how many bytes it has.
pub fn put_session(
    sides: Sides,
    order: Order,
    settings: Settings,
    labels: &[u8],
    values: &[i32],
    output: &mut [u8],
) -> usize
    requires { length (written (record { sides = sides; labels = labels.now; values = values.now }) order settings) ≤ length output.old }
    ensures { Put (written (record { sides = sides; labels = labels.now; values = values.now }) order settings) output.old 0 output.new result }
{
    let mut sink = Sink {
        bytes: output,
        at: 0,
    };
    put_header(&mut sink, sides, order, settings);
    sink.put(labels);
    sink.put_each(&InOrder(order), values);
    sink.at
}
