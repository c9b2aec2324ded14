// What a cycle needs of a cast, from its labels, its sides and the number of levels alone.
ghost use Rattle.std.specs.Prelude.{length};
ghost use Rattle.solve.specs.Work.{PrepareAsked, PlanOf};

use method::Sides;
use rounds::Plan;

// The labels of all levels into the room of bytes, and the lists of the cells that are smoothed into the room of words.
pub fn prepare(
    sides: Sides,
    labels: &[u8],
    levels: u32,
    bytes: &mut [u8],
    words: &mut [u32],
) -> Plan
    requires { PrepareAsked sides labels.now levels (length bytes.old) (length words.old) }
    ensures { PlanOf sides labels.now levels result bytes.new words.new }
{
    let count = levels as usize;
    let l = levels::sides::levels_of(sides);
    levels::labels::all_labels(bytes, labels, l, count);
    let lists = bands::lists::all_lists(words, &bytes[..], l, count);
    Plan {
        levels: l,
        lists,
        count,
    }
}
