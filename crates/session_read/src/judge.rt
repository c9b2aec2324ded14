// The reader's checks, in document 01's order: 10, 1, 11, 2, 3, 4, 5.
ghost use Rattle.std.specs.Prelude.{◌≡◌};
ghost use Rattle.method.specs.Answers.{verdict};
ghost use Rattle.method.specs.Reading.{content_checks};
ghost use Rattle.session_header.specs.Lines.{HeaderOf};
ghost use Rattle.session_read.specs.Reads.{Bodied, JudgedOf, Sized, asked};
ghost use Rattle.checks.specs.Rulings.{ruling_of};

use crate::content::judge_content;
use crate::sizes::{judge_second, judge_sides};
use answers::Fault;
use grid::place::cell_count;
use session_header::Header;
use session_header::line::rest;

// Checks 3, 4 and 5, of what the header names and a body of n cells.
fn judge_rest(bytes: &[u8], n: usize, h: Header) -> Result<(), Fault>
    requires { Sized bytes.now h n }
    ensures { verdict content_checks (asked bytes.now 0) ≡ ruling_of result }
{
    let body = rest(bytes, h.start);
    judge_content(h.settings, body, n, h.order)
}

// Checks 2, 3, 4 and 5, of a session whose sizes are right.
fn judge_body(bytes: &[u8], room: usize, h: Header) -> Result<Header, Fault>
    requires { Bodied bytes.now h }
    ensures { JudgedOf bytes.now room result }
{
    let n = cell_count(h.sides);
    judge_second(n, room)?;
    judge_rest(bytes, n, h)?;
    Ok(h)
}

// Checks 1 and 11, and then the others.
fn judge_sizes(bytes: &[u8], room: usize, h: Header) -> Result<Header, Fault>
    requires { HeaderOf bytes.now (Ok h) }
    ensures { JudgedOf bytes.now room result }
{
    judge_sides(h.sides, bytes.len() - h.start)?;
    judge_body(bytes, room, h)
}

// Check 10, by what the header was read to be, and then all others: what the header names, or the first fault.
pub(crate) fn judge_session(
    bytes: &[u8],
    read: Result<Header, u32>,
    room: usize,
) -> Result<Header, Fault>
    requires { HeaderOf bytes.now read }
    ensures { JudgedOf bytes.now room result }
{
    let h = read.map_err(Fault::BadLine)?;
    judge_sizes(bytes, room, h)
}
