// The shape of a directory: refusal 3.
ghost use Rattle.std.specs.Prelude.{◌≡◌, ◌+◌, ◌*◌, ◌≤◌, ◌<◌, length};
ghost use Rattle.reading.specs.Reading.{run};
ghost use Rattle.directory.specs.Facts.Out.{out};
ghost use Rattle.directory.specs.Widths.{entry_width};
ghost use Rattle.directory.specs.Facts.Widths.{WidthsIn};
ghost use Rattle.directory.specs.Shape.{entry_reading, shape_from, ifd_reading};
ghost use Rattle.directory.specs.Facts.Shape.{TagIn, IfdIn};

use crate::refusal::Refusal;
use crate::{Ifd, Widths, entry};
use reading::number;
use reading::number::Order;

// The tag of the entry at a place, whose value must lie in the file. The fields are read here one by one, and the size by the
// type's number: `header` would stay a call in the loop over all entries.
fn placed_tag(file: &[u8], order: Order, widths: Widths, at: usize) -> Result<usize, Refusal>
    requires { (at + entry_width widths ≤ length file.now) × (length file.now ≤ 67108864) × WidthsIn widths }
    ensures result_value { out result ≡ run file.now (entry_reading widths (length file.now) order at) }
    ensures tag_in { TagIn result }
{
    let word = widths.word;
    let types = widths.types;
    let head = 4 + word;
    let tag = number::short(file, order, at) as usize;
    let size = entry::size_of(types, number::short(file, order, at + 2) as usize);
    let count = number::value(file, order, word, at + 4);
    if entry::fits(size, count, word) {
        return Ok(tag);
    }
    let place = number::value(file, order, word, at + head);
    if entry::many_inside(place, size, count, file.len()) {
        Ok(tag)
    } else {
        Err(Refusal::Shape)
    }
}

// So many entries from a place on: their values lie in the file, and their tags ascend strictly.
fn check_entries(
    file: &[u8],
    order: Order,
    widths: Widths,
    count: usize,
    at: usize,
) -> Result<usize, Refusal>
    requires { (at + entry_width widths * count ≤ length file.now) × (length file.now ≤ 67108864) × WidthsIn widths }
    ensures { out result ≡ run file.now (shape_from widths (length file.now) order count at 0) }
{
    let word = widths.word;
    let step = 4 + word + word;
    let mut p = at;
    let mut low: usize = 0;
    for _ in 0..count {
        let tag = placed_tag(file, order, widths, p)?;
        if tag < low {
            return Err(Refusal::Shape);
        }
        low = tag + 1;
        p += step;
    }
    Ok(low)
}

// The directory at an offset.
pub fn ifd_at(file: &[u8], order: Order, widths: Widths, at: usize) -> Result<Ifd, Refusal>
    requires { (length file.now ≤ 67108864) × WidthsIn widths }
    ensures { (out result ≡ run file.now (ifd_reading widths (length file.now) order at)) × IfdIn file.now result }
{
    let entries = widths.entries;
    if !number::inside(at, entries, file.len()) {
        return Err(Refusal::Shape);
    }
    let word = widths.word;
    let count = number::value(file, order, entries, at);
    let first = at + entries;
    if count == 0 {
        return Err(Refusal::Shape);
    }
    if !entry::many_inside(first + word, 4 + word + word, count, file.len()) {
        return Err(Refusal::Shape);
    }
    check_entries(file, order, widths, count, first)?;
    Ok(Ifd {
        order,
        widths,
        count,
        at: first,
    })
}
