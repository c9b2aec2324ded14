// The print of an answer (document 01, "The program", and document 02, wish 5): eight lines, and on 0 a line for each
// pressure.
#![tactic(auto)]

ghost use Rattle.std.specs.Prelude.{◌+◌, ◌≤◌, length};
ghost use Rattle.method.specs.Form.{line};
ghost use Rattle.method.specs.Program.{whole, answer_lines, print};
ghost use Rattle.text_out.specs.Puts.{Room};
ghost use Rattle.answer_print.specs.Shows.{cell_line, worst_lines, cast_lines, answer_room, print_room, PutShort, PutsShort};

use method::Answer;
use session_bytes::put_three;
use text_out::{Form, Sink};

// Puts a line of a key and a whole number: a minus where it is negative, and its size.
fn put_whole(sink: &mut Sink<'_>, key: &[u8], p: i64)
    requires { Room (length key.now + 21) sink.old }
    ensures { PutsShort (length key.now + 21) (line key.now (whole p)) sink.old sink.new }
{
    let n = p.unsigned_abs();
    if p < 0 {
        sink.put(key);
        sink.put_line(b"-", n);
    } else {
        sink.put_line(key, n);
    }
}

// Puts the worst residual, its cell and its value with the sign.
fn put_worst(sink: &mut Sink<'_>, a: Answer)
    requires { Room 70 sink.old }
    ensures { PutsShort 70 (worst_lines a) sink.old sink.new }
{
    sink.put_line(b"worst=", u64::from(a.worst));
    sink.put_line(b"worstcell=", u64::from(a.worstcell));
    put_whole(sink, b"worstvalue=", i64::from(a.worstvalue));
}

// Puts what an answer says of the cast alone.
fn put_cast(sink: &mut Sink<'_>, a: Answer)
    requires { Room 37 sink.old }
    ensures { PutsShort 37 (cast_lines a) sink.old sink.new }
{
    sink.put_line(b"interior=", u64::from(a.interior));
    sink.put_line(b"depth=", u64::from(a.depth));
}

// Puts the eight lines of an answer.
fn put_answer(sink: &mut Sink<'_>, a: Answer)
    requires { Room answer_room sink.old }
    ensures { PutsShort answer_room (answer_lines a) sink.old sink.new }
{
    put_three(
        sink, b"answer=", a.number, b"place=", a.place, b"rounds=", a.rounds,
    );
    put_worst(sink, a);
    put_cast(sink, a);
}

// A pressure is put as a line.
#[derive(Drop)]
struct CellLine;

impl Form<i64> for CellLine {
    ghost word = { λ s p. cell_line p };

    ghost most = { λ s. 26 };

    fn put(&self, sink: &mut Sink<'_>, p: i64) {
        put_whole(sink, b"cell=", p);
    }
}

// Puts the whole print at the front, and answers how many bytes it has.
pub fn show(answer: Answer, pressures: &[i64], output: &mut [u8]) -> usize
    requires { print_room (length pressures.now) ≤ length output.old }
    ensures { PutShort (print_room (length pressures.now)) (print answer pressures.now) output.old 0 output.new result }
{
    let mut sink = Sink {
        bytes: output,
        at: 0,
    };
    put_answer(&mut sink, answer);
    // Kept: `Answer` is the one that C has too, by whose number 0 nothing is at fault.
    let accepted = answer.number == 0;
    if accepted {
        sink.put_each(&CellLine, pressures);
    }
    sink.at
}
