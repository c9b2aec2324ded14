// Where the residual of an accepted answer is worst (document 02, wish 5): one more walk over the air on a pass.
#![tactic(auto)]

ghost use Rattle.std.specs.Prelude.{◌≡◌, ◌<◌};
ghost use Rattle.method.specs.Cast.{cells, first, is_worst};
ghost use Rattle.acceptance.specs.Cells.{rounded_on};
ghost use Rattle.worst.specs.Worst.{cast_of, Sought, worst_of};

use acceptance::residual_at;
use answers::Worst;
use grid::near::label_at;
use grid::place::cell_count;
use method::Sides;
use search::first_where;

// Kept: sides, labels, values and x go from function to function, since a struct of them holds a `&`: each `ensures` would speak of
// its fields as they were at the entry.

// Whether c is an air cell whose residual has the worst size.
fn is_worst(g: Sides, labels: &[u8], values: &[i32], x: &[f64], c: usize, worst: u32) -> bool
    requires { Sought g labels.now values.now x.now worst × (c < cells g) }
    ensures { result ≡ is_worst (cast_of g labels.now values.now) (rounded_on g labels.now values.now x.now) c }
{
    if label_at(labels, c) == 0 {
        return residual_at(g, labels, values, x, c).unsigned_abs() == u64::from(worst);
    }
    false
}

// The first such cell.
fn worst_cell(g: Sides, labels: &[u8], values: &[i32], x: &[f64], worst: u32) -> Option<u32>
    requires { Sought g labels.now values.now x.now worst }
    ensures { result ≡ first (is_worst (cast_of g labels.now values.now) (rounded_on g labels.now values.now x.now)) (cells g) }
{
    first_where(cell_count(g), |c| is_worst(g, labels, values, x, c, worst))
}

// The first such cell and the residual that the rounded x leaves there; both 0 where there is none.
pub fn worst_of(g: Sides, labels: &[u8], values: &[i32], x: &[f64], worst: u32) -> Worst
    requires { Sought g labels.now values.now x.now worst }
    ensures { result ≡ worst_of (cast_of g labels.now values.now) (rounded_on g labels.now values.now x.now) }
{
    match worst_cell(g, labels, values, x, worst) {
        Some(cell) => {
            let left = residual_at(g, labels, values, x, cell as usize) as i32;
            Worst { cell, left }
        }
        None => Worst { cell: 0, left: 0 },
    }
}
