// A spot.
ghost use Rattle.std.specs.Prelude.{◌≡◌};
ghost use Rattle.develop.specs.Calls.{spot_with, spot_call};
ghost use Rattle.develop.specs.Calls;
ghost use Rattle.develop.specs.Facts.View.{Viewed};

use crate::View;
use directory::refusal::Refusal;
use levels::active::{ActiveColumn, ActiveRow};
use opcodes::grid::Size;
use raw::front::FileRaw;
use raw::sample;

// Whether a spot is in the active area and has such a plane.
pub fn within(size: Size, row: usize, column: usize, plane: usize) -> bool
    ensures { result ≡ Calls.within size row column plane }
{
    row < size.rows && column < size.columns && plane < size.samples
}

// A spot of an accepted file: its sample alone, through the list.
fn spot_in(file: &[u8], view: View, row: usize, column: usize, plane: usize) -> Result<f64, Refusal>
    requires { Viewed file.now view }
    ensures { spot_with result ≡ spot_call file.now row column plane }
{
    if !within(view.size, row, column, plane) {
        return Err(Refusal::Outside);
    }
    let picture = view.picture;
    let raw = picture.raw;
    let values = raw.tags.list;
    let r = ActiveRow(row);
    let c = ActiveColumn(column);
    let order = picture.order;
    let source = FileRaw { file, order, raw };
    let x = sample::scaled_at(source, r, c, plane);
    let value = rows::list::list_at(file, view.size, values.place, values.count, r, c, plane, x);
    Ok(value)
}

pub fn spot(file: &[u8], row: usize, column: usize, plane: usize) -> Result<f64, Refusal>
    ensures { spot_with result ≡ spot_call file.now row column plane }
{
    let view = crate::open(file)?;
    spot_in(file, view, row, column, plane)
}
