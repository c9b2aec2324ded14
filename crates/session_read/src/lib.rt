// The reader of a session (document 01, "The session form").
#![tactic(auto)]

mod content;
mod judge;
mod sizes;

ghost use Rattle.std.specs.Prelude.{◌≡◌};
ghost use Rattle.method.specs.Reading.{reading};
ghost use Rattle.session_header.specs.Lines.{HeaderOf};
ghost use Rattle.session_read.specs.Reads.{FitIf, ReadOf, asked, taken_of};

use answers::{Fault, done};
use grid::place::cell_count;
use judge::judge_session;
use method::{Answer, Order, Settings, Sides};
use session_header::line::rest;
use session_header::{Header, read_header};
use session_values::store_values;

// What the reader hands back beside the label part, and where in the bytes that part starts.
// Kept: no `Result`, since C is handed every field on a refusal too, and `ReadOf` says what it is.
#[derive(Clone, Copy)]
pub struct Session {
    pub answer: Answer,
    pub sides: Sides,
    pub order: Order,
    pub settings: Settings,
    pub start: usize,
}

// What is taken of a session: what is handed back, and how many cells are read.
#[derive(Clone, Copy)]
struct Taken {
    session: Session,
    count: usize,
}

// What is taken of a session that was judged: of a refused one nothing, and no cell.
fn taken_of(judged: Result<Header, Fault>) -> Taken
    requires { FitIf judged }
    ensures { result ≡ taken_of judged }
{
    match judged {
        Err(fault) => {
            let session = Session {
                answer: Answer::from(fault),
                sides: Sides {
                    nx: 0,
                    ny: 0,
                    nz: 0,
                },
                order: Order::Big,
                settings: Settings {
                    tolerance: 0,
                    levels: 0,
                    rounds: 0,
                },
                start: 0,
            };
            Taken { session, count: 0 }
        }
        Ok(h) => {
            let session = Session {
                answer: done(),
                sides: h.sides,
                order: h.order,
                settings: h.settings,
                start: h.start,
            };
            let count = cell_count(h.sides);
            Taken { session, count }
        }
    }
}

// Reads a session whose header was read: what it names is handed back, the values are stored. All checks come before the
// first store.
pub fn read_after(bytes: &[u8], header: Result<Header, u32>, values: &mut [i32]) -> Session
    requires { HeaderOf bytes.now header }
    ensures { ReadOf bytes.now values.old result values.new }
{
    let judged = judge_session(bytes, header, values.len());
    let taken = taken_of(judged);
    let session = taken.session;
    let order = session.order;
    let start = session.start;
    let count = taken.count;
    let body = rest(bytes, start);
    store_values(body, count, order, values);
    session
}

// Reads a session.
pub fn read(bytes: &[u8], values: &mut [i32]) -> Session
    ensures { ReadOf bytes.now values.old result values.new }
{
    read_after(bytes, read_header(bytes), values)
}

// The label part of a session that is read with room for so many values: no copy. Nothing where the reader refuses it.
pub fn labels(bytes: &[u8], room: usize) -> &[u8]
    ensures { result.now ≡ (reading (asked bytes.now room)).labels }
{
    let judged = judge_session(bytes, read_header(bytes), room);
    let taken = taken_of(judged);
    let session = taken.session;
    let start = session.start;
    let count = taken.count;
    &bytes[start..start + count]
}
