// L by one product with the reciprocal of S, in place of a division of whole numbers.
ghost use Rattle.std.specs.Prelude.{◌≡◌, ◌<◌, ℤ, pos, nat_abs};
ghost use Rattle.std.specs.Float.{binary64};
ghost use Rattle.std.specs.Float.Ieee.{of_int};
ghost use Rattle.levels.specs.Level.{difference_of, level_of, scaled_of};
ghost use Rattle.levels.specs.Facts.Reciprocal.{of_parts, inverse_of, floored_of, capped_of, whole_of, DifferenceIs, BlackIs, InverseIs};

// A number of 256ths as f64.
pub fn number_of(z: i64) -> f64
    requires { nat_abs z < 0x1_0000_0000 }
    ensures { result ≡ of_parts z }
{
    z as f64 / 256.0
}

// 65535 / S, raised by 2^-45 of itself, so that the product with a D that lies halfway goes up.
pub fn inverse(s: i64) -> f64
    requires { nat_abs s < 0x1_0000_0000 }
    ensures { result ≡ inverse_of s }
{
    65535.00000000186264514923095703125 / number_of(s)
}

// The greater of x and 0, and 0 of a NaN and of -0.0: `f64::max` leaves a zero's sign open.
fn floored(x: f64) -> f64
    ensures { result ≡ floored_of x }
{
    if 0.0 < x { x } else { 0.0 }
}

// The less of x and 65535; the proof over `f64::min` did not close.
fn capped(x: f64) -> f64
    ensures { result ≡ capped_of x }
{
    if x < 65535.0 { x } else { 65535.0 }
}

// The nearest whole number of one from 0 to 65535.
fn whole(y: f64) -> f64
    ensures { result ≡ whole_of y }
{
    (y + 4503599627370496.0) - 4503599627370496.0
}

// L, from D and its plane's reciprocal.
pub fn level(d: f64, r: f64) -> f64
    ensures { (difference span : ℤ) → DifferenceIs difference d → InverseIs span r → result ≡ of_int binary64 (pos (level_of difference span)) }
{
    whole(capped(floored(d) * r))
}

// The scaled value of a sample that has gone through the table, from its black and its plane's reciprocal.
pub fn scaled_by(v: u16, b: f64, r: f64) -> f64
    ensures { (black span : ℤ) → BlackIs black b → InverseIs span r → result ≡ scaled_of (level_of (difference_of v black) span) }
{
    level(v as f64 - b, r) / 65535.0
}
