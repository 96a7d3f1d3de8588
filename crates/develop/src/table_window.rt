// A window by tables.
ghost use Rattle.std.specs.Prelude.{◌≡◌};
ghost use Rattle.develop.specs.Calls.{window_with, window_call};
ghost use Rattle.develop.specs.Facts.View.{Viewed};

use crate::fill::Rectangle;
use crate::{View, tabled, window};
use directory::refusal::Refusal;

// A window of an accepted file: 13 and 14, then its values.
fn table_window_in(
    file: &[u8],
    view: View,
    window: Rectangle,
    out: &mut [f64],
) -> Result<(), Refusal>
    requires { Viewed file.now view }
    ensures { window_with result out.new ≡ window_call file.now window.top window.left window.height window.width out.old }
{
    let size = view.size;
    window::test_window(size, size.samples, window, out.len())?;
    tabled::fill_tabled(file, view, window, out);
    Ok(())
}

pub fn table_window(
    file: &[u8],
    top: usize,
    left: usize,
    height: usize,
    width: usize,
    out: &mut [f64],
) -> Result<(), Refusal>
    ensures { window_with result out.new ≡ window_call file.now top left height width out.old }
{
    let window = Rectangle {
        top,
        left,
        height,
        width,
    };
    let view = crate::open(file)?;
    table_window_in(file, view, window, out)
}
