// The entries of each level's air, one level after the other in the word room: first the cells that are smoothed, by
// ascending i + j + k, then the others.
ghost use Rattle.std.specs.Prelude.{◌≡◌, ◌+◌, ◌≤◌, ◌<◌, length};
ghost use Rattle.laws.specs.Lists.{kept, chosen};
ghost use Rattle.method.specs.Cast.{cells, is_air, interior};
ghost use Rattle.method.specs.Cycle.{in_band};
ghost use Rattle.theory.specs.Waves.{wave_cell, wave_line, wave_of, waves};
ghost use Rattle.theory.specs.Sides.{Fit};
ghost use Rattle.grid.specs.Entries.{entry_of};
ghost use Rattle.bands.specs.Other.{BandAsked};
ghost use Rattle.levels.specs.Levels.{base};
ghost use Rattle.bands.specs.Lists.{Room, Fills, LevelFills, Listed, smoothed, list_of, left, left_at, air_of};
ghost use Rattle.bands.specs.AllLists.{list_in, air_in, base_labels, LevelAsked, ListsAsked, AllListed};

use levels::sides::Levels;
use method::Sides;

// A level's list: where it starts, how much of it is swept, and how long it is.
#[derive(Clone, Copy)]
pub struct LevelList {
    pub start: usize,
    pub swept: usize,
    pub air: usize,
}

// Six of them, 0 on levels that aren't used.
pub type Lists = [LevelList; 6];

// Kept: labels, g and band go from function to function. A struct of the three holds a `&`, so that each `ensures` would
// have to write `l.entry.labels.now` for `labels.now`.

// Whether cell c is in the band.
fn is_in_band(labels: &[u8], g: Sides, c: usize) -> bool
    requires fit { Fit g }
    requires c_bound { c < cells g }
    ensures { result ≡ in_band g labels.now c }
{
    let h = levels::sides::halved_of(g);
    let n = grid::place::cell_count(g);
    let m = grid::place::cell_count(h);
    crate::band::in_band(labels, g, h, n, m, c)
}

// Whether cell c is to be smoothed: in the band, or air.
fn is_smoothed(labels: &[u8], g: Sides, band: bool, c: usize) -> bool
    requires fit { Fit g }
    requires c_bound { c < cells g }
    ensures { result ≡ smoothed band g labels.now c }
{
    if band {
        is_in_band(labels, g, c)
    } else {
        grid::near::label_at(labels, c) == 0
    }
}

// Whether cell c is air that is left: off the band, where there is one.
fn is_left(labels: &[u8], g: Sides, band: bool, c: usize) -> bool
    requires fit { Fit g }
    requires c_bound { c < cells g }
    ensures { result ≡ left band g labels.now c }
{
    let label = grid::near::label_at(labels, c);
    if label != 0 {
        return false;
    }
    if band {
        if is_in_band(labels, g, c) {
            return false;
        }
        return true;
    }
    false
}

// A lent word room, and the next place in it.
#[derive(Drop)]
struct Filling<'a> {
    words: &'a mut [u32],
    next: usize,
}

impl Filling<'_> {
    // The entry of cell c is written to the next place if the cell is to be kept.
    fn keep(&mut self, labels: &[u8], g: Sides, c: usize, yes: bool)
        requires fit { Fit g }
        requires c_bound { c < cells g }
        requires room { Room (length (kept yes c)) self.old }
        ensures { Fills (entry_of g labels.now) (kept yes c) self.old self.new }
    {
        if yes {
            let n = grid::place::cell_count(g);
            self.words[self.next] = grid::entry::entry_of(labels, g, n, c);
            self.next += 1;
        }
    }

    // Cell c, if it is to be smoothed.
    fn keep_cell(&mut self, labels: &[u8], g: Sides, band: bool, c: usize)
        requires fit { Fit g }
        requires c_bound { c < cells g }
        requires room { Room (length (kept (smoothed band g labels.now c) c)) self.old }
        ensures { Fills (entry_of g labels.now) (kept (smoothed band g labels.now c) c) self.old self.new }
    {
        self.keep(labels, g, c, is_smoothed(labels, g, band, c));
    }

    // The cell of wave w at j and k, if there is one and it is to be smoothed.
    fn keep_at(&mut self, labels: &[u8], g: Sides, band: bool, w: usize, k: usize, j: usize)
        requires fit { Fit g }
        requires j_lt_ny { (j < g.ny) × (k < g.nz) }
        requires room { Room (length (wave_cell g (smoothed band g labels.now) w k j)) self.old }
        ensures { Fills (entry_of g labels.now) (wave_cell g (smoothed band g labels.now) w k j) self.old self.new }
    {
        let near = j + k;
        if w < near {
            return;
        }
        let i = w - near;
        if g.nx as usize <= i {
            return;
        }
        let c = grid::place::number_of(g, i, j, k);
        self.keep_cell(labels, g, band, c);
    }

    // Those of wave w at k.
    fn keep_line(&mut self, labels: &[u8], g: Sides, band: bool, w: usize, k: usize)
        requires fit { Fit g }
        requires k_lt_nz { k < g.nz }
        requires room { Room (length (wave_line g (smoothed band g labels.now) w k)) self.old }
        ensures { Fills (entry_of g labels.now) (wave_line g (smoothed band g labels.now) w k) self.old self.new }
    {
        let n = g.ny as usize;
        for j in 0..n {
            self.keep_at(labels, g, band, w, k, j);
        }
    }

    // All of wave w.
    fn keep_wave(&mut self, labels: &[u8], g: Sides, band: bool, w: usize)
        requires fit { Fit g }
        requires room { Room (length (wave_of g (smoothed band g labels.now) w)) self.old }
        ensures { Fills (entry_of g labels.now) (wave_of g (smoothed band g labels.now) w) self.old self.new }
    {
        let n = g.nz as usize;
        for k in 0..n {
            self.keep_line(labels, g, band, w, k);
        }
    }

    // The cells of a level of sides g that are to be smoothed, wave by wave.
    fn keep_waves(&mut self, labels: &[u8], g: Sides, band: bool)
        requires fit { Fit g }
        requires room { Room (length (waves g (smoothed band g labels.now))) self.old }
        ensures { Fills (entry_of g labels.now) (waves g (smoothed band g labels.now)) self.old self.new }
    {
        let n = (g.nx as usize) + (g.ny as usize) + (g.nz as usize);
        for w in 0..n {
            self.keep_wave(labels, g, band, w);
        }
    }

    // Cell c, if it is left.
    fn keep_left(&mut self, labels: &[u8], g: Sides, band: bool, c: usize)
        requires fit { Fit g }
        requires c_bound { c < cells g }
        requires room { Room (length (left_at band g labels.now c)) self.old }
        ensures { Fills (entry_of g labels.now) (left_at band g labels.now c) self.old self.new }
    {
        self.keep(labels, g, c, is_left(labels, g, band, c));
    }

    // The cells that are left, by ascending number.
    fn keep_rest(&mut self, labels: &[u8], g: Sides, band: bool)
        requires fit { Fit g }
        requires room { Room (length (chosen (left band g labels.now) (cells g))) self.old }
        ensures { Fills (entry_of g labels.now) (chosen (left band g labels.now) (cells g)) self.old self.new }
    {
        let n = grid::place::cell_count(g);
        for c in 0..n {
            self.keep_left(labels, g, band, c);
        }
    }

    // All air of a level: what is swept, and then what is left.
    fn keep_air(&mut self, labels: &[u8], g: Sides, band: bool) -> LevelList
        requires fit { Fit g }
        requires room { Room (interior g labels.now) self.old }
        ensures { LevelFills (list_of band g labels.now) (air_of band g labels.now) self.old result self.new }
    {
        let start = self.next;
        let swept = wave_list(self.words, start, labels, g, band);
        self.next = start + swept;
        self.keep_rest(labels, g, band);
        LevelList {
            start,
            swept,
            air: self.next - start,
        }
    }

    // The list of level k of count levels; on every level but the last its band is swept, on the last all its air.
    fn keep_level(&mut self, bytes: &[u8], l: Levels, count: usize, k: usize) -> LevelList
        requires { LevelAsked l k self.old.next bytes.now (length self.old.words.now) }
        ensures { LevelFills (list_in l count bytes.now k) (air_in l count bytes.now k) self.old result self.new }
    {
        let level = l[k];
        let to = level.start + grid::place::cell_count(level.sides);
        let band = k + 1 < count;
        self.keep_air(&bytes[level.start..to], level.sides, band)
    }
}

// The cells of a level of sides g that are to be smoothed, wave by wave, from place `at` on; how many they are.
pub fn wave_list(words: &mut [u32], at: usize, labels: &[u8], g: Sides, band: bool) -> usize
    requires fit { Fit g }
    requires labels_in_bounds { at + interior g labels.now ≤ length words.old }
    ensures { Listed words.old at (list_of band g labels.now) result words.new }
{
    let mut filling = Filling { words, next: at };
    filling.keep_waves(labels, g, band);
    filling.next - at
}

// The lists of the levels 0 to count - 1, one after the other.
pub fn all_lists(words: &mut [u32], bytes: &[u8], l: Levels, count: usize) -> Lists
    requires { ListsAsked l count bytes.now (length words.old) }
    ensures { AllListed (base l) (base_labels l bytes.now) count words.old result words.new }
{
    let mut lists = [LevelList {
        start: 0,
        swept: 0,
        air: 0,
    }; 6];
    let mut filling = Filling { words, next: 0 };
    for k in 0..count {
        lists[k] = filling.keep_level(bytes, l, count, k);
    }
    lists
}
