// The reader of an old session (document 02, wish 2).
#![tactic(auto)]

mod judge;
mod values;

ghost use Rattle.std.specs.Prelude.{◌≡◌};
ghost use Rattle.method.specs.OldForm.{old_reading};
ghost use Rattle.old_read.specs.OldReads.{TakesIf, OldReadOf, old_asked, old_taken_of};

use answers::{Fault, done};
use grid::place::cell_count;
use judge::judge_old;
use method::{Answer, Settings, Sides};
use old_header::OldHeader;
use session_header::line::rest;
use values::store_values;

// What the reader hands back: the label part of the bytes begins at `start`.
// Kept: no `Result`, since C is handed every field on a refusal too, and `OldReadOf` says what it is.
#[repr(C)]
#[derive(Clone, Copy)]
pub struct OldSession {
    pub answer: Answer,
    pub sides: Sides,
    pub unit: u32,
    pub start: usize,
}

// What is taken of a session: what is handed back, where the body starts, and how many cells are read.
#[derive(Clone, Copy)]
struct Taken {
    session: OldSession,
    body: usize,
    count: usize,
}

// What is taken of a session that was judged: of a refused one nothing, and no cell.
fn taken_of(judged: Result<OldHeader, Fault>) -> Taken
    requires { TakesIf judged }
    ensures { result ≡ old_taken_of judged }
{
    match judged {
        Err(fault) => {
            let session = OldSession {
                answer: Answer::from(fault),
                sides: Sides {
                    nx: 0,
                    ny: 0,
                    nz: 0,
                },
                unit: 0,
                start: 0,
            };
            Taken {
                session,
                body: 0,
                count: 0,
            }
        }
        Ok(h) => {
            let body = h.start;
            let count = cell_count(h.sides);
            let session = OldSession {
                answer: done(),
                sides: h.sides,
                unit: h.unit,
                start: body + 2 * count,
            };
            Taken {
                session,
                body,
                count,
            }
        }
    }
}

// Reads an old session: sides, unit and where the labels begin are handed back, the values are stored. All checks come
// before the first store.
pub fn read_old(settings: Settings, bytes: &[u8], values: &mut [i32]) -> OldSession
    ensures { OldReadOf settings bytes.now values.old result values.new }
{
    let judged = judge_old(bytes, values.len(), settings);
    let taken = taken_of(judged);
    let session = taken.session;
    let unit = session.unit;
    let start = taken.body;
    let count = taken.count;
    let body = rest(bytes, start);
    store_values(body, count, unit, values);
    session
}

// The label part of an old session that is read with room for so many values: no copy. Nothing where the reader refuses
// it.
pub fn old_labels(settings: Settings, bytes: &[u8], room: usize) -> &[u8]
    ensures { result.now ≡ (old_reading (old_asked settings bytes.now room)).labels }
{
    let judged = judge_old(bytes, room, settings);
    let taken = taken_of(judged);
    let session = taken.session;
    let start = session.start;
    let count = taken.count;
    &bytes[start..start + count]
}
