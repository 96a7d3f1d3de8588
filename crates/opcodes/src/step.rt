// An opcode at one sample.
ghost use Rattle.std.specs.Prelude.{◌≡◌, ◌+◌, ◌*◌, ◌<◌, ◌≤◌, min, length, slice_index_or};
ghost use Rattle.levels.specs.Clip.{clip_of};
ghost use Rattle.opcodes.specs.Step.{minus_zero, index_of, mapped_of, table_at, applied_of, value_of, coefficients_of, polynomial_of};
ghost use Rattle.opcodes.specs.TableIndex.{IndexRange, index_from_bits, WholePart};
ghost use Rattle.opcodes.specs.Facts.Step.{TableIn, StepIn};
ghost use Rattle.opcodes.specs.Grid.{long_of};

use crate::grid;
use levels::table;
use reading::number::Order;
use reading::{number, real};

// An added number, a factor, nine coefficients with the constant first, or the place of a table: its
// size and then its entries.
// The coefficients are nine fields and no array, as `result_of` and `polynomial_of` name each.
#[derive(Clone, Copy)]
pub enum Step {
    Add(f64),
    Scale(f64),
    Polynomial(f64, f64, f64, f64, f64, f64, f64, f64, f64),
    Table(usize),
}

// From 0 to 1; 0 of a NaN and of -0.0, where `clamp` would leave them as they are.
pub fn clip(x: f64) -> f64
    ensures { result ≡ clip_of x }
{
    let y = if 0.0 < x { x } else { 0.0 };
    if y < 1.0 { y } else { 1.0 }
}

// k of a v = x * 65535.0 + 0.5, from its exponent field and its fraction field; 2^52 is the hidden bit. An exponent field under 1023
// is 1022, as v is at least 0.5: then the shift is by 53, and leaves 0.
pub fn index_from_bits(v: f64) -> u64
    requires { IndexRange v }
    ensures { (result ≡ index_from_bits v) × WholePart v result }
{
    let bits: u64 = f64::to_bits(v);
    let exponent = real::exponent_field(bits);
    let digits = 0x10_0000_0000_0000 + real::fraction_field(bits);
    digits >> (1075 - exponent)
}

// The index into a table, or 65535 where it is above; 0 of a NaN.
fn index(x: f64) -> u16
    ensures { result ≡ min (index_of x) 65535 }
{
    let v = x * 65535.0 + 0.5;
    if v >= 0.5 {
        if v <= 65535.5 {
            return index_from_bits(v) as u16;
        }
        return 65535;
    }
    0
}

// x through the table of a size at a place.
pub fn mapped(file: &[u8], at: usize, size: usize, x: f64) -> f64
    requires { TableIn file.now at × (size ≡ long_of file.now at) }
    ensures { result ≡ mapped_of (table_at file.now at) x }
{
    levels::scaled(table::through(file, Order::Big, at + 4, size, index(x)))
}

// The index of a number from 0 to 1.
fn unit_index(x: f64) -> u16
    requires { clip_of x ≡ x }
    ensures { result ≡ index_of x }
{
    index_from_bits(x * 65535.0 + 0.5) as u16
}

// A number from 0 to 1 through the table; it needs no clip.
pub fn unit_mapped(file: &[u8], at: usize, size: usize, x: f64) -> f64
    requires { TableIn file.now at × (size ≡ long_of file.now at) × (clip_of x ≡ x) }
    ensures { result ≡ clip_of (mapped_of (table_at file.now at) x) }
{
    levels::scaled(table::through(file, Order::Big, at + 4, size, unit_index(x)))
}

pub fn apply(step: Step, file: &[u8], x: f64) -> f64
    requires { StepIn file.now step }
    ensures { result ≡ applied_of step file.now x }
{
    match step {
        Step::Add(d) => clip(x + d),
        Step::Scale(f) => clip(x * f),
        Step::Polynomial(a0, a1, a2, a3, a4, a5, a6, a7, a8) => {
            let p = ((((((((a8 * x + a7) * x + a6) * x + a5) * x + a4) * x + a3) * x + a2) * x + a1)
                * x
                + a0);
            clip(p)
        }
        Step::Table(at) => clip(mapped(file, at, grid::field(file, at), x)),
    }
}

// A FLOAT or a DOUBLE that was accepted.
pub fn value(x: Option<f64>) -> f64
    ensures { result ≡ value_of x }
{
    x.unwrap_or(0.0)
}

// The k-th of n coefficients, or -0.0 past the highest.
pub fn coefficient(file: &[u8], at: usize, n: usize, k: usize) -> f64
    requires { (k < 9) × (at + 8 * n ≤ length file.now) }
    ensures { result ≡ slice_index_or (coefficients_of file.now at n) k minus_zero }
{
    if k < n {
        value(real::double_at(file, at + 8 * k))
    } else {
        -0.0
    }
}

// The step of a polynomial whose n coefficients stand at a place.
pub fn polynomial_at(file: &[u8], at: usize, n: usize) -> Step
    requires { at + 8 * n ≤ length file.now }
    ensures { result ≡ polynomial_of (coefficients_of file.now at n) }
{
    let a0 = coefficient(file, at, n, 0);
    let a1 = coefficient(file, at, n, 1);
    let a2 = coefficient(file, at, n, 2);
    let a3 = coefficient(file, at, n, 3);
    let a4 = coefficient(file, at, n, 4);
    let a5 = coefficient(file, at, n, 5);
    let a6 = coefficient(file, at, n, 6);
    let a7 = coefficient(file, at, n, 7);
    let a8 = coefficient(file, at, n, 8);
    Step::Polynomial(a0, a1, a2, a3, a4, a5, a6, a7, a8)
}
