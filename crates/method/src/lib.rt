// The types that the meaning and the code share. No code: what they mean stands in specs/. Those of the C interface are
// laid out as C lays them out.
#![tactic(auto)]

// The sides of a box of cells.
#[repr(C)]
#[derive(Clone, Copy)]
pub struct Sides {
    pub nx: u32,
    pub ny: u32,
    pub nz: u32,
}

// The byte order that a session names.
#[derive(Clone, Copy)]
pub enum Order {
    Big,
    Little,
}

#[repr(C)]
#[derive(Clone, Copy)]
pub struct Settings {
    pub tolerance: u32,
    pub levels: u32,
    pub rounds: u32,
}

// What comes back from every call.
#[repr(C)]
#[derive(Clone, Copy)]
pub struct Answer {
    pub number: u32,
    pub place: u32,
    pub rounds: u32,
    pub worst: u32,
    pub worstcell: u32,
    pub worstvalue: i32,
    pub interior: u32,
    pub depth: u32,
}

// The four scalars of a round.
#[derive(Clone, Copy)]
pub struct Scalars {
    pub rho: f64,
    pub sigma: f64,
    pub alpha: f64,
    pub beta: f64,
}
