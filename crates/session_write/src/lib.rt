// The writer of a session (document 01, "The session form").
#![tactic(auto)]

mod judge;

ghost use Rattle.session_write.specs.Writes.{WriteOf};

use answers::done;
use judge::judge_cast;
use method::{Answer, Order, Settings, Sides};
use session_bytes::put_session;

// What the writer hands back.
// Kept: no `Result`, since C is handed both fields on a refusal too, and `WriteOf` says what they are.
#[repr(C)]
#[derive(Clone, Copy)]
pub struct Written {
    pub answer: Answer,
    pub count: usize,
}

// Writes a session at the front of the output. All checks come before the first store.
pub fn write(
    sides: Sides,
    order: Order,
    settings: Settings,
    labels: &[u8],
    values: &[i32],
    output: &mut [u8],
) -> Written
    ensures { WriteOf sides order settings labels.now values.now output.old result output.new }
{
    match judge_cast(sides, order, settings, labels, values, output.len()) {
        Err(fault) => {
            let answer = Answer::from(fault);
            Written { answer, count: 0 }
        }
        Ok(()) => {
            let count = put_session(sides, order, settings, labels, values, output);
            let answer = done();
            Written { answer, count }
        }
    }
}
