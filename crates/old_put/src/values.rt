// Values as two bytes each, the most significant first: a value is stored as how many units it has.
ghost use Rattle.std.specs.Prelude.{◌≡◌, ◌<◌};
ghost use Rattle.method.specs.OldForm.{two_bytes, old_value_written};

use session_bytes::byte_of;
use text_out::{Form, Sink};

// The word of 16 bits that stores a value, in two's complement.
fn stored_word(v: i32, unit: u32) -> u32
    requires { 0 < unit }
    ensures { two_bytes result ≡ old_value_written unit v }
{
    let units = v.unsigned_abs() / unit;
    if v < 0 {
        65536u32.saturating_sub(units)
    } else {
        units
    }
}

// A value is put as the two bytes that say how many units it has.
#[derive(Drop)]
pub(crate) struct InUnits {
    pub(crate) unit: u32,
    ghost above_zero: { 0 < unit },
}

impl Form<i32> for InUnits {
    ghost word = { λ s v. old_value_written s.unit v };

    ghost most = { λ s. 2 };

    fn put(&self, sink: &mut Sink<'_>, v: i32) {
        let w = stored_word(v, self.unit);
        sink.put(&[byte_of(w, 256), byte_of(w, 1)]);
    }
}
