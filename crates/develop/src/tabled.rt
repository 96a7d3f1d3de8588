// A window's values by tables: the scaled values of all bytes are worked out once for each cell of the black level that the window
// meets, and the samples are looked up.
ghost use Rattle.std.specs.Prelude.{◌≡◌, true, ℕ, ◌+◌, ◌*◌, ◌/◌, ◌%◌, ◌≤◌, ◌<◌, length};
ghost use Rattle.std.specs.Float.{nan};
ghost use Rattle.samples.specs.Facts.Line.{Filled, WideIn};
ghost use Rattle.tables.specs.Tables.{tabled};
ghost use Rattle.tables.specs.Facts.RowTables.{RowTables};
ghost use Rattle.develop.specs.Calls.{values_of, alone_in};
ghost use Rattle.develop.specs.Facts.Fill.{FillIn, number_of};
ghost use Rattle.develop.specs.Facts.Tabled.{levels_of, rows_met, columns_met, TabledIn, BandTables, RowsUpto};
ghost use Rattle.develop.specs.Facts.View.{Viewed};

use crate::fill::Rectangle;
use crate::{View, fill};
use levels::active::{ActiveColumn, ActiveRow};
use raw::front::FileRaw;
use rawtags::Tags;

// How many rows of the black level's repeat a window meets.
fn rows_met(view: View, window: Rectangle) -> usize
    ensures { result ≡ rows_met view window }
{
    window.height.min(view.picture.raw.tags.levels.repeat.rows)
}

// And how many of its columns.
fn columns_met(view: View, window: Rectangle) -> usize
    ensures { result ≡ columns_met view window }
{
    window
        .width
        .min(view.picture.raw.tags.levels.repeat.columns)
}

// The developed values of the part of an active row from an active column on, its samples looked up in tables from a first one on.
fn table_part(
    file: &[u8],
    view: View,
    row: ActiveRow,
    column: ActiveColumn,
    tables: &[[f64; 256]],
    first: usize,
    out: &mut [f64],
)
    requires viewed { Viewed file.now view × (row.0 < view.size.rows) × (column.0 < view.size.columns) × WideIn view.picture.raw.tags column.0 (length out.old) }
    requires tags_value { (tabled view.picture.raw.tags ≡ true) × (1 ≤ length out.old) × RowTables (levels_of file.now view) row.0 column.0 (length out.old) tables.now first }
    ensures { (q : Viewed file.now view) → Filled nan (λ (k : ℕ). alone_in file.now q.file row.0 (column.0 + k / view.size.samples) (k % view.size.samples)) (length out.old) out.new }
{
    let picture = view.picture;
    let order = picture.order;
    let raw = picture.raw;
    let values = raw.tags.list;
    let size = view.size;
    tables::row::table_row(file, order, raw, row, column, tables, first, out);
    rows::list::list_row(file, size, values.place, values.count, row, column, out);
}

// The i-th row of a window, where the tables at hand are its own: of so many rows of cells behind the first `from`.
fn band_row(
    file: &[u8],
    view: View,
    window: Rectangle,
    i: usize,
    from: usize,
    count: usize,
    tables: &[[f64; 256]],
    out: &mut [f64],
)
    requires { TabledIn file.now view window × BandTables file.now view window from count tables.now × (i < window.height) × (length out.old ≡ window.width) }
    ensures filled { (q : Viewed file.now view) → from ≤ i % rows_met view window → i % rows_met view window < from + count → Filled nan (number_of (alone_in file.now q.file) window view.size.samples i) (length out.old) out.new }
    ensures out_unchanged { i % rows_met view window < from → out.new ≡ out.old }
{
    let columns = columns_met(view, window);
    let down = i % rows_met(view, window);
    if from <= down && down - from < count {
        let row = ActiveRow(window.top + i);
        let column = ActiveColumn(window.left);
        let first = (down - from) * columns;
        table_part(file, view, row, column, tables, first, out);
    }
}

// All rows of a window whose tables are at hand.
fn band_rows(
    file: &[u8],
    view: View,
    window: Rectangle,
    from: usize,
    count: usize,
    tables: &[[f64; 256]],
    out: &mut [f64],
)
    requires { TabledIn file.now view window × BandTables file.now view window from count tables.now × (length out.old ≡ window.height * window.width) }
    ensures { (q : Viewed file.now view) → let x = number_of (alone_in file.now q.file) window view.size.samples in RowsUpto x (rows_met view window) window.height window.width from out.old → RowsUpto x (rows_met view window) window.height window.width (from + count) out.new }
{
    let height = window.height;
    let width = window.width;
    let mut a = 0;
    for i in 0..height {
        let e = a + width;
        band_row(file, view, window, i, from, count, tables, &mut out[a..e]);
        a = e;
    }
}

// The tables of so many rows of cells behind the first `from`, and all rows of the window that need them.
fn fill_band(
    file: &[u8],
    view: View,
    window: Rectangle,
    from: usize,
    count: usize,
    tables: &mut [[f64; 256]],
    out: &mut [f64],
)
    requires { TabledIn file.now view window × (from + count ≤ rows_met view window) × (count * columns_met view window ≤ length tables.old) × (length out.old ≡ window.height * window.width) }
    ensures { (q : Viewed file.now view) → let x = number_of (alone_in file.now q.file) window view.size.samples in RowsUpto x (rows_met view window) window.height window.width from out.old → RowsUpto x (rows_met view window) window.height window.width (from + count) out.new }
{
    let picture = view.picture;
    let order = picture.order;
    let raw = picture.raw;
    let columns = columns_met(view, window);
    let row = ActiveRow(window.top + from);
    let column = ActiveColumn(window.left);
    tables::fill::fill_tables(
        FileRaw { file, order, raw },
        row,
        column,
        columns,
        count * columns,
        tables,
    );
    band_rows(file, view, window, from, count, tables, out);
}

// As many rows of cells at a time as have room for their tables.
fn fill_bands(
    file: &[u8],
    view: View,
    window: Rectangle,
    tables: &mut [[f64; 256]],
    out: &mut [f64],
)
    requires { TabledIn file.now view window × (length tables.old ≡ 16) × (length out.old ≡ window.height * window.width) }
    ensures { (q : Viewed file.now view) → out.new ≡ values_of (alone_in file.now q.file) window.top window.left window.height window.width view.size.samples }
{
    let rows = rows_met(view, window);
    let columns = columns_met(view, window);
    let most = 16 / columns;
    for from in (0..rows).step_by(most) {
        let count = most.min(rows - from);
        fill_band(file, view, window, from, count, tables, out);
    }
}

// A window inside the active area of an accepted file that has tables. Sixteen of them are 32 KiB.
fn fill_by_tables(file: &[u8], view: View, window: Rectangle, out: &mut [f64])
    requires { TabledIn file.now view window × (length out.old ≡ window.height * window.width) }
    ensures { (q : Viewed file.now view) → out.new ≡ values_of (alone_in file.now q.file) window.top window.left window.height window.width view.size.samples }
{
    let empty: [f64; 256] = [0.0; 256];
    let mut tables: [[f64; 256]; 16] = [empty; 16];
    fill_bands(file, view, window, &mut tables, out);
}

// Whether the tables of a window pay, which meets so many rows and columns of cells. Where the columns do not come again after four
// samples, looking up is no faster than a window's own way, unless there is a linearization table. A table costs what so many samples
// cost.
fn pays(tags: Tags, window: Rectangle, rows: usize, columns: usize) -> bool
    requires { (1 ≤ rows) × (1 ≤ columns) × (window.height ≤ 16384) × (window.width ≤ 16384) }
{
    let entries = tags.levels.table;
    if 4 % columns != 0 && entries.count == 0 {
        return false;
    }
    let down = window.height / rows;
    let across = window.width / columns;
    256 <= down * across
}

// A window inside the active area of an accepted file: by tables where the file has them and they pay.
pub fn fill_tabled(file: &[u8], view: View, window: Rectangle, out: &mut [f64])
    requires { FillIn file.now view window out.old }
    ensures { (q : FillIn file.now view window out.old) → out.new ≡ values_of (alone_in file.now q.file.file) window.top window.left window.height window.width view.size.samples }
{
    let tags = view.picture.raw.tags;
    if tables::has_tables(tags) {
        let rows = rows_met(view, window);
        let columns = columns_met(view, window);
        if pays(tags, window, rows, columns) {
            fill_by_tables(file, view, window, out);
            return;
        }
    }
    fill::fill_window(file, view, window, out);
}
