// An opcode's step at one sample, from its parameters.
ghost use Rattle.std.specs.Prelude.{◌≡◌, ◌+◌, ◌*◌, ◌≤◌, true, length};
ghost use Rattle.opcodes.specs.Facts.StepAt.{plain_id, float_at, FloatIn, step_of, StepAtIn};

use crate::list::Kind;
use crate::step::Step;
use crate::{grid, list, step};
use reading::number::Order;
use reading::{number, real};

// The k-th FLOAT of an opcode.
pub fn float_value(file: &[u8], at: usize, k: usize) -> f64
    requires { at + 36 + 4 * k + 4 ≤ length file.now }
    ensures { result ≡ float_at file.now at k }
{
    step::value(real::float_at(file, at + 36 + 4 * k))
}

// The same of an accepted opcode, with no test of its pattern.
pub fn accepted_value(file: &[u8], at: usize, k: usize) -> f64
    requires { FloatIn file.now at k }
    ensures { result ≡ float_at file.now at k }
{
    let x = f32::from_bits(number::long(file, Order::Big, at + 36 + 4 * k));
    x as f64
}

// The step at a grid's i-th row and j-th column. A polynomial is returned by itself: with one place for all, every step would be
// written number by number.
pub fn step_for(file: &[u8], at: usize, id: usize, i: usize, j: usize) -> Step
    requires { StepAtIn file.now at id i j × (plain_id id ≡ true) }
    ensures { result ≡ step_of file.now at id i j }
{
    match list::kind_of(id) {
        Kind::MapTable => Step::Table(at + 32),
        Kind::MapPolynomial => {
            return step::polynomial_at(file, at + 36, grid::field(file, at + 32) + 1);
        }
        Kind::DeltaPerRow => Step::Add(float_value(file, at, i)),
        Kind::DeltaPerColumn => Step::Add(float_value(file, at, j)),
        Kind::ScalePerRow => Step::Scale(float_value(file, at, i)),
        _ => Step::Scale(float_value(file, at, j)),
    }
}
