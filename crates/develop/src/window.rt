// A window.
ghost use Rattle.std.specs.Prelude.{◌≡◌, ◌≤◌};
ghost use Rattle.rows.specs.Facts.Part.{SizedIn};
ghost use Rattle.develop.specs.Calls.{inside, window_with, window_call};
ghost use Rattle.develop.specs.Facts.View.{Viewed};
ghost use Rattle.develop.specs.Facts.Fill.{window_test};

use crate::fill::Rectangle;
use crate::{View, fill};
use directory::refusal::Refusal;
use opcodes::grid::Size;
use reading::number;

// Whether a window is not empty, and lies in the active area.
fn lies_inside(size: Size, window: Rectangle) -> bool
    ensures { result ≡ inside size window.top window.left window.height window.width }
{
    number::some_inside(window.top, window.height, size.rows)
        && number::some_inside(window.left, window.width, size.columns)
}

// Whether a window lies in the active area, and the slice has its length at so many values to a pixel.
pub fn test_window(size: Size, values: usize, window: Rectangle, len: usize) -> Result<(), Refusal>
    requires { SizedIn size × (values ≤ 3) }
    ensures { result ≡ window_test size values window.top window.left window.height window.width len }
{
    if !lies_inside(size, window) {
        return Err(Refusal::Outside);
    }
    if len != window.height * window.width * values {
        return Err(Refusal::SliceLength);
    }
    Ok(())
}

// A window of a file that was opened: what `window` does behind its opening, for a caller that asks for several. `table_window_in` and
// `coloured_in` say its three steps again: with one function for them, each would hand it a closure with a contract, which is longer.
pub fn opened_window(
    file: &[u8],
    view: View,
    top: usize,
    left: usize,
    height: usize,
    width: usize,
    out: &mut [f64],
) -> Result<(), Refusal>
    requires { Viewed file.now view }
    ensures { window_with result out.new ≡ window_call file.now top left height width out.old }
{
    let size = view.size;
    let window = Rectangle {
        top,
        left,
        height,
        width,
    };
    test_window(size, size.samples, window, out.len())?;
    fill::fill_window(file, view, window, out);
    Ok(())
}

pub fn window(
    file: &[u8],
    top: usize,
    left: usize,
    height: usize,
    width: usize,
    out: &mut [f64],
) -> Result<(), Refusal>
    ensures { window_with result out.new ≡ window_call file.now top left height width out.old }
{
    let view = crate::open(file)?;
    opened_window(file, view, top, left, height, width, out)
}
