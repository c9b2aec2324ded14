// The checks of a session's content: 3 of its settings, 4 and 5 of its body.
ghost use Rattle.std.specs.Prelude.{◌≡◌, ◌*◌, ◌≤◌, length};
ghost use Rattle.method.specs.Cast.{first};
ghost use Rattle.answers.specs.declared.Fault.TheVariants.{BadValue};
ghost use Rattle.checks.specs.Rulings.{ruling_by};
ghost use Rattle.session_values.specs.Body.{bad_value_in};
ghost use Rattle.session_read.specs.Reads.{content_ruling};

use answers::Fault;
use checks::cast::{at_fault, judge_labels, judge_settings};
use method::{Order, Settings};
use session_values::bad_value;

// Check 5, of a body of n cells.
fn judge_values(body: &[u8], n: usize, order: Order) -> Result<(), Fault>
    requires { (n ≤ 32768) × (5 * n ≤ length body.now) }
    ensures { result ≡ ruling_by BadValue (first (bad_value_in body.now n order) n) }
{
    at_fault(|cell| Fault::BadValue(cell), bad_value(body, n, order))
}

// Checks 3, 4 and 5, of the settings and a body of n cells.
pub(crate) fn judge_content(
    settings: Settings,
    body: &[u8],
    n: usize,
    order: Order,
) -> Result<(), Fault>
    requires { (n ≤ 32768) × (5 * n ≤ length body.now) }
    ensures { result ≡ content_ruling settings body.now n order }
{
    judge_settings(settings)?;
    judge_labels(body, n)?;
    judge_values(body, n, order)
}
