// The makers of answers: every answer of the solver, the reader and the writer is made here, so a field more is a line
// in each.
#![tactic(auto)]

ghost use Rattle.std.specs.Prelude.{◌≡◌};
ghost use Rattle.method.specs.Answers.{refusal as Answers·refusal, accepted as Answers·accepted, unfinished as Answers·unfinished};
ghost use Rattle.answers.specs.Ends.{number_of_end, rounds_of_end, without_worst};
ghost use Rattle.answers.specs.Faults.{number_of, place_of};

use method::Answer;

// What is at fault in a cast or a session, by document 01's table and, at 13, document 02's: with its place where it
// has one, a cell or the line of a header.
#[derive(Clone, Copy)]
pub enum Fault {
    SideOutOfRange,
    WrongLength,
    SettingOutOfRange,
    BadLabel(u32),
    BadValue(u32),
    NoAir,
    SealedAir(u32),
    BadLine(u32),
    BadBody,
    Inexpressible(u32),
}

// Why rounds ended with no answer 0, after so many of them.
#[derive(Clone, Copy)]
pub enum Halt {
    LimitReached(u32),
    Stalled(u32),
}

// How accepted rounds ended: after so many, with this worst residual.
#[derive(Clone, Copy)]
pub struct Passed {
    pub rounds: u32,
    pub worst: u32,
}

// Where the residual is worst, and that residual with its sign.
#[derive(Clone, Copy)]
pub struct Worst {
    pub cell: u32,
    pub left: i32,
}

// What an answer says of the cast alone: its air cells, and the greatest of their distances to an opening.
#[derive(Clone, Copy)]
pub struct Measured {
    pub interior: u32,
    pub depth: u32,
}

impl Fault {
    // Its number in the table.
    pub fn number(self) -> u32
        ensures { result ≡ number_of self }
    {
        match self {
            Fault::SideOutOfRange => 1,
            Fault::WrongLength => 2,
            Fault::SettingOutOfRange => 3,
            Fault::BadLabel(_) => 4,
            Fault::BadValue(_) => 5,
            Fault::NoAir => 6,
            Fault::SealedAir(_) => 7,
            Fault::BadLine(_) => 10,
            Fault::BadBody => 11,
            Fault::Inexpressible(_) => 13,
        }
    }

    // Its cell or line, and 0 where the table gives it no place.
    pub fn place(self) -> u32
        ensures { result ≡ place_of self }
    {
        match self {
            Fault::BadLabel(cell)
            | Fault::BadValue(cell)
            | Fault::SealedAir(cell)
            | Fault::Inexpressible(cell) => cell,
            Fault::BadLine(line) => line,
            Fault::SideOutOfRange
            | Fault::WrongLength
            | Fault::SettingOutOfRange
            | Fault::NoAir
            | Fault::BadBody => 0,
        }
    }
}

impl From<Fault> for Answer {
    ghost from_gives = { λ r a. a ≡ Answers·refusal (number_of r) (place_of r) };

    fn from(r: Fault) -> Answer {
        refusal(r.number(), r.place())
    }
}

impl Halt {
    // Its number in the table.
    pub fn number(self) -> u32
        ensures { result ≡ number_of_end self }
    {
        match self {
            Halt::LimitReached(_) => 8,
            Halt::Stalled(_) => 9,
        }
    }

    // After how many rounds.
    pub fn rounds(self) -> u32
        ensures { result ≡ rounds_of_end self }
    {
        match self {
            Halt::LimitReached(rounds) | Halt::Stalled(rounds) => rounds,
        }
    }
}

// All but what an accepted answer says of its worst residual.
fn without_worst(number: u32, place: u32, rounds: u32, interior: u32, depth: u32) -> Answer
    ensures { result ≡ without_worst number place rounds interior depth }
{
    Answer {
        number,
        place,
        rounds,
        worst: 0,
        worstcell: 0,
        worstvalue: 0,
        interior,
        depth,
    }
}

// A number and a place alone.
pub fn refusal(number: u32, place: u32) -> Answer
    ensures { result ≡ Answers·refusal number place }
{
    without_worst(number, place, 0, 0, 0)
}

// The answer where nothing is at fault, of all calls but the solver's own: 0, with the other fields 0.
pub fn done() -> Answer
    ensures { result ≡ Answers·refusal 0 0 }
{
    refusal(0, 0)
}

// Answers 8 and 9.
pub fn unfinished(number: u32, rounds: u32, of: Measured) -> Answer
    ensures { result ≡ Answers·unfinished number rounds of.interior of.depth }
{
    let interior = of.interior;
    let depth = of.depth;
    without_worst(number, 0, rounds, interior, depth)
}

// Answer 0 of the solver.
pub fn accepted(rounds: u32, worst: u32, at: Worst, of: Measured) -> Answer
    ensures { result ≡ Answers·accepted rounds worst at.cell at.left of.interior of.depth }
{
    Answer {
        number: 0,
        place: 0,
        rounds,
        worst,
        worstcell: at.cell,
        worstvalue: at.left,
        interior: of.interior,
        depth: of.depth,
    }
}
