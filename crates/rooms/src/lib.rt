// The solver's rooms: how much of each a cast of n cells needs, and how it is handed back. One
// loop clears the front of a slice of any kind.
#![tactic(auto)]

ghost use Rattle.std.specs.Prelude.{◌≡◌, ◌≤◌, length};
ghost use Rattle.laws.specs.Binary64.{+0};
ghost use Rattle.method.specs.Rooms.{byte_need, float_need, word_need, cleared};

// How many bytes n cells need.
pub fn byte_need(n: usize) -> usize
    requires { n ≤ 32768 }
    ensures { result ≡ byte_need n }
{
    2 * n + 16
}

// How many binary64 n cells need.
pub fn float_need(n: usize) -> usize
    requires { n ≤ 32768 }
    ensures { result ≡ float_need n }
{
    8 * n + 64
}

// How many u32 n cells need.
pub fn word_need(n: usize) -> usize
    requires { n ≤ 32768 }
    ensures { result ≡ word_need n }
{
    2 * n
}

// The first n elements become z.
pub fn clear_front<T: Copy>(room: &mut [T], n: usize, z: T)
    requires { n ≤ length room.old }
    ensures { room.new ≡ cleared n z room.old }
{
    for i in 0..n {
        room[i] = z;
    }
}

// The needed part of each room, handed back as zeros.
pub fn clear(bytes: &mut [u8], floats: &mut [f64], words: &mut [u32], n: usize)
    requires { (n ≤ 32768) × ((byte_need n ≤ length bytes.old) × ((float_need n ≤ length floats.old) × (word_need n ≤ length words.old))) }
    ensures bytes_after { bytes.new ≡ cleared (byte_need n) 0 bytes.old }
    ensures floats_after { floats.new ≡ cleared (float_need n) +0 floats.old }
    ensures words_after { words.new ≡ cleared (word_need n) 0 words.old }
{
    clear_front(bytes, byte_need(n), 0);
    clear_front(floats, float_need(n), 0.0);
    clear_front(words, word_need(n), 0);
}
