// The bytes of an old session, put into a lent output: two lines, values, labels (document 02, wish 2).
#![tactic(auto)]

pub mod length;
mod values;

ghost use Rattle.std.specs.Prelude.{◌≤◌, ◌<◌, length as ListN·length};
ghost use Rattle.laws.specs.Text.{text};
ghost use Rattle.method.specs.Form.{line};
ghost use Rattle.method.specs.OldForm.{size_word, old_header_written, old_written};
ghost use Rattle.text_out.specs.Puts.{Put, Room, Puts};

use method::Sides;
use text_out::Sink;
use values::InUnits;

// Puts the line of the size.
fn put_size(sink: &mut Sink<'_>, sides: Sides)
    requires { Room (ListN·length (line (text "size=") (size_word sides))) sink.old }
    ensures { Puts (line (text "size=") (size_word sides)) sink.old sink.new }
{
    sink.put_number(b"size=", u64::from(sides.nx), b"x");
    sink.put_number(b"", u64::from(sides.ny), b"x");
    sink.put_number(b"", u64::from(sides.nz), b"\n");
}

// Puts the two lines.
fn put_lines(sink: &mut Sink<'_>, sides: Sides, unit: u32)
    requires { Room (ListN·length (old_header_written sides unit)) sink.old }
    ensures { Puts (old_header_written sides unit) sink.old sink.new }
{
    put_size(sink, sides);
    sink.put_line(b"unit=", u64::from(unit));
}

// Puts a whole old session at the front, and answers how many bytes it has.
pub fn put_old_session(
    sides: Sides,
    unit: u32,
    labels: &[u8],
    values: &[i32],
    output: &mut [u8],
) -> usize
    requires { (0 < unit) × (ListN·length (old_written (record { sides = sides; labels = labels.now; values = values.now }) unit) ≤ ListN·length output.old) }
    ensures { Put (old_written (record { sides = sides; labels = labels.now; values = values.now }) unit) output.old 0 output.new result }
{
    let mut sink = Sink {
        bytes: output,
        at: 0,
    };
    put_lines(&mut sink, sides, unit);
    sink.put_each(&InUnits { unit }, values);
    sink.put(labels);
    sink.at
}
