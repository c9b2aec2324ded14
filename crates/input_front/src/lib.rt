// The front of an input: as many of its first bytes as a lent buffer holds.
#![tactic(auto)]

ghost use Rattle.std.specs.Prelude.{◌≤◌, length, take};
ghost use Rattle.std.specs.Io.KnownBytes.{Consumes};

use std::io::Read;

// Reads until the buffer is full, the input ends or a read fails, and answers how many bytes were put at the buffer's
// front: just these were taken from the input, in its order.
pub fn read_front<R: Read>(from: &mut R, buffer: &mut [u8]) -> usize
    ensures within { result ≤ length buffer.new }
    ensures taken { Consumes (R.remaining from.old) (R.remaining from.new) (take result buffer.new) }
{
    let mut done = 0;
    // Kept: no index is counted here. A read gives as many bytes as it likes, and `done` says how many came so far.
    while done < buffer.len() {
        let n = from.read(&mut buffer[done..]).unwrap_or(0);
        if n == 0 {
            break;
        }
        done += n;
    }
    done
}

// The same, handed back as the bytes themselves, which are the buffer's front.
pub fn front_of<'a, R: Read>(from: &mut R, buffer: &'a mut [u8]) -> &'a [u8]
    ensures within { length result.now ≤ length buffer.old }
    ensures taken { Consumes (R.remaining from.old) (R.remaining from.new) result.now }
{
    let got = read_front(from, buffer);
    &buffer[..got]
}
