// The writer of an old session (document 02, wish 2).
#![tactic(auto)]

mod judge;
mod units;

ghost use Rattle.old_write.specs.OldWrites.{OldWriteOf};

use answers::done;
use judge::judge_old_cast;
use method::{Answer, Sides};
use old_put::put_old_session;
use session_write::Written;

// Writes an old session at the front of the output. All checks come before the first store.
pub fn write_old(
    sides: Sides,
    unit: u32,
    labels: &[u8],
    values: &[i32],
    output: &mut [u8],
) -> Written
    ensures { OldWriteOf sides unit labels.now values.now output.old result output.new }
{
    match judge_old_cast(sides, unit, labels, values, output.len()) {
        Err(fault) => {
            let answer = Answer::from(fault);
            Written { answer, count: 0 }
        }
        Ok(()) => {
            let count = put_old_session(sides, unit, labels, values, output);
            let answer = done();
            Written { answer, count }
        }
    }
}
