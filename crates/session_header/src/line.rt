// One line of a header.
ghost use Rattle.std.specs.Prelude.{◌≡◌, ◌+◌, ◌-◌, ◌*◌, ◌≤◌, ◌<◌, true, [], ◌∷◌, length, drop};
ghost use Rattle.std.specs.List.{take_while};
ghost use Rattle.std.specs.Char.{is_ascii_digit};
ghost use Rattle.method.specs.Numbers.{digits, is_digit, is_number, value_of};
ghost use Rattle.method.specs.Form.{number_line, order_line};
ghost use Rattle.method.specs.OldForm.{number_to};
ghost use Rattle.session_header.specs.Lines.{LineOf};

use crate::Read;

// The bytes from a place on.
pub fn rest(bytes: &[u8], at: usize) -> &[u8]
    requires { at ≤ length bytes.now }
    ensures { result.now ≡ drop at bytes.now }
{
    &bytes[at..]
}

// How many digits the bytes begin with.
fn digit_count(bytes: &[u8]) -> usize
    ensures { result ≡ length (take_while is_ascii_digit bytes.now) }
{
    bytes.iter().take_while(|b| b.is_ascii_digit()).count()
}

// Whether the n digits that the bytes begin with are a number of the form.
fn is_number(bytes: &[u8], n: usize) -> bool
    requires { n ≡ length (digits bytes.now) }
    ensures { result ≡ is_number (digits bytes.now) }
{
    if n < 1 {
        return false;
    }
    if 7 < n {
        return false;
    }
    if n == 1 {
        return true;
    }
    bytes[0] != 48
}

// A number with one digit more.
fn with_digit(v: u32, b: u8) -> u32
    requires { (v < 1000000) × (is_digit b ≡ true) }
    ensures { result ≡ 10 * v + (b - 48) }
{
    10 * v + u32::from(b - b'0')
}

// The value of the n digits that the bytes begin with.
fn value_of(bytes: &[u8], n: usize) -> u32
    requires { (n ≡ length (digits bytes.now)) × (n ≤ 7) }
    ensures { result ≡ value_of 0 (digits bytes.now) }
{
    let mut v = 0;
    for i in 0..n {
        v = with_digit(v, bytes[i]);
    }
    v
}

// A number after a key, up to a byte that ends it.
pub fn number_to(bytes: &[u8], key: &[u8], end: u8) -> Option<Read>
    ensures { LineOf (number_to (end ∷ []) key.now) bytes.now result }
{
    if !bytes.starts_with(key) {
        return None;
    }
    let word = rest(bytes, key.len());
    let n = digit_count(word);
    let left = rest(word, n);
    if !left.starts_with(&[end]) {
        return None;
    }
    if is_number(word, n) {
        let value = value_of(word, n);
        let taken = key.len() + n + 1;
        Some(Read { value, taken })
    } else {
        None
    }
}

// A line of a key and a number.
pub fn number_line(bytes: &[u8], key: &[u8]) -> Option<Read>
    ensures { LineOf (number_line key.now) bytes.now result }
{
    number_to(bytes, key, b'\n')
}

// The line of the order: 0 for `big`, 1 for `little`.
// Kept: document 01 reads seven lines of one form, each for a number; `order_of` makes the `Order` of this one.
pub(crate) fn order_line(bytes: &[u8]) -> Option<Read>
    ensures { LineOf order_line bytes.now result }
{
    if bytes.starts_with(b"order=big\n") {
        return Some(Read {
            value: 0,
            taken: 10,
        });
    }
    if bytes.starts_with(b"order=little\n") {
        return Some(Read {
            value: 1,
            taken: 13,
        });
    }
    None
}
