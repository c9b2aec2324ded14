// Numbers as decimal digits.
ghost use Rattle.std.specs.Prelude.{length};
ghost use Rattle.method.specs.Numbers.{decimal};
ghost use Rattle.text_out.specs.Puts.{DigitsOf, Room, Puts};

use crate::Sink;

// How many digits a number has: 0 has no logarithm, and one digit.
pub fn digits_of(n: u64) -> usize
    ensures { DigitsOf n result }
{
    1 + n.checked_ilog10().unwrap_or(0) as usize
}

impl Sink<'_> {
    // Puts a number's digits.
    // Kept: `write!` is no plainer. It goes through `fmt::Write`, whose contract leaves open when a write fails, so that a
    // put that cannot fail is not made of it.
    pub(crate) fn put_decimal(&mut self, n: u64)
        requires { Room (length (decimal n)) self.old }
        ensures { Puts (decimal n) self.old self.new }
    {
        if 10 <= n {
            self.put_decimal(n / 10);
        }
        self.put(&[(48 + n % 10) as u8]);
    }
}
