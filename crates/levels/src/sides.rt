// Where each level stands in a room, and its sides.
ghost use Rattle.std.specs.Prelude.{◌≡◌, ◌^◌, ◌<◌};
ghost use Rattle.method.specs.Levels.{halved};
ghost use Rattle.theory.specs.Sides.{Fit};
ghost use Rattle.levels.specs.Levels.{next_level, levels_of, sides_in};

// Where a level starts in a room, and its sides.
#[derive(Clone, Copy)]
pub struct Level {
    pub start: usize,
    pub sides: method::Sides,
}

// Six levels, whatever the number of levels used.
pub type Levels = [Level; 6];

// Each side half, rounded up.
pub fn halved_of(g: method::Sides) -> method::Sides
    requires { Fit g }
    ensures { result ≡ halved g }
{
    method::Sides {
        nx: (g.nx + 1) / 2,
        ny: (g.ny + 1) / 2,
        nz: (g.nz + 1) / 2,
    }
}

// The level after this one.
fn level_after(l: Level) -> Level
    requires fit { Fit l.sides }
    requires start_bound { l.start < 2 ^ 32 }
    ensures { result ≡ next_level l }
{
    Level {
        start: l.start + grid::place::cell_count(l.sides),
        sides: halved_of(l.sides),
    }
}

// The levels of a box: each starts where the one before it ends.
pub fn levels_of(g: method::Sides) -> Levels
    requires { Fit g }
    ensures { result ≡ levels_of g }
{
    let mut next = Level { start: 0, sides: g };
    let mut levels = [next; 6];
    for level in &mut levels {
        *level = next;
        next = level_after(next);
    }
    levels
}

// The sides of level k.
pub fn sides_at(l: Levels, k: usize) -> method::Sides
    requires { k < 6 }
    ensures { result ≡ sides_in l k }
{
    l[k].sides
}
