// An entry: a cell, six bits for the faces across which there is air, and d, in one word.
ghost use Rattle.std.specs.Prelude.{◌≡◌, ◌+◌, ◌≤◌, ◌<◌};
ghost use Rattle.method.specs.Cast.{cells};
ghost use Rattle.theory.specs.Sides.{Fit};
ghost use Rattle.grid.specs.Entries.{entry_of, face_of};

// What the face to cell j, or to the outside, adds.
fn face_at(labels: &[u8], j: usize, unit: u32) -> u32
    requires { unit ≤ 1048576 }
    ensures value { result ≡ face_of labels.now unit j }
    ensures upper_bound { result ≤ 2097152 + unit }
{
    let l = crate::near::label_at(labels, j);
    if l == 0 {
        return 2097152 + unit;
    }
    if l == 1 {
        return 2097152;
    }
    0
}

// The entry of cell c of n.
pub fn entry_of(labels: &[u8], g: method::Sides, n: usize, c: usize) -> u32
    requires fit { Fit g }
    requires n_value { (n ≡ cells g) × (c < cells g) }
    ensures { result ≡ entry_of g labels.now c }
{
    let near = crate::near::neighbours(g, n, c);
    let west = face_at(labels, near[0], 32768);
    let east = face_at(labels, near[1], 65536);
    let south = face_at(labels, near[2], 131072);
    let north = face_at(labels, near[3], 262144);
    let below = face_at(labels, near[4], 524288);
    let above = face_at(labels, near[5], 1048576);
    (c as u32) + west + east + south + north + below + above
}
