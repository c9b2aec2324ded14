// Bytes, numbers and lines put into a lent output, one part after the other.
#![tactic(auto)]

pub mod decimal;

ghost use Rattle.std.specs.Prelude.{ℕ, List, ◌++◌, ◌+◌, ◌*◌, ◌≤◌, length};
ghost use mathlib.Core.List.{flat_map};
ghost use Rattle.method.specs.Numbers.{decimal as Form·decimal};
ghost use Rattle.method.specs.Form.{line};
ghost use Rattle.text_out.specs.Puts.{Put, Room, Puts};

// Puts bytes at a place, and answers the place after them.
// Kept beside `Sink::put`, which calls it: `library_tests` puts one part with it, and what it promises is public.
pub fn put_bytes(output: &mut [u8], at: usize, bytes: &[u8]) -> usize
    requires { at + length bytes.now ≤ length output.old }
    ensures { Put bytes.now output.old at output.new result }
{
    // Kept, byte by byte: `copy_from_slice` is a call of C's `memmove`, which the library for C needs for nothing else.
    for i in 0..bytes.len() {
        output[at + i] = bytes[i];
    }
    at + bytes.len()
}

// A lent output, and the place up to which it is filled.
#[derive(Drop)]
pub struct Sink<'a> {
    pub bytes: &'a mut [u8],
    pub at: usize,
}

impl Sink<'_> {
    // Puts bytes.
    pub fn put(&mut self, bytes: &[u8])
        requires { Room (length bytes.now) self.old }
        ensures { Puts bytes.now self.old self.new }
    {
        self.at = put_bytes(self.bytes, self.at, bytes);
    }

    // Puts a key, a number and an end.
    pub fn put_number(&mut self, key: &[u8], n: u64, end: &[u8])
        requires { Room (length (key.now ++ Form·decimal n ++ end.now)) self.old }
        ensures { Puts (key.now ++ Form·decimal n ++ end.now) self.old self.new }
    {
        self.put(key);
        self.put_decimal(n);
        self.put(end);
    }

    // Puts a line of a key and a number.
    pub fn put_line(&mut self, key: &[u8], n: u64)
        requires { Room (length (line key.now (Form·decimal n))) self.old }
        ensures { Puts (line key.now (Form·decimal n)) self.old self.new }
    {
        self.put_number(key, n, b"\n")
    }

    // Puts all items of a list in one form, one after the other.
    pub fn put_each<T: Copy, F: Form<T>>(&mut self, form: &F, items: &[T])
        requires { Room (F.most form.now * length items.now) self.old }
        ensures puts { Puts (flat_map (F.word form.now) items.now) self.old self.new }
        ensures few { self.new.at ≤ self.old.at + F.most form.now * length items.now }
    {
        for &item in items {
            form.put(self, item);
        }
    }
}

// How an item is put: the bytes of each, and how many they are at most.
pub trait Form<T> {
    ghost word: { Self → T → List ℕ };

    ghost most: { Self → ℕ };

    fn put(&self, sink: &mut Sink<'_>, item: T)
        requires { Room (most self.now) sink.old }
        ensures puts { Puts (word self.now item) sink.old sink.new }
        ensures few { sink.new.at ≤ sink.old.at + most self.now };
}
