// A part of a row, looked up in the tables of its cells.
ghost use Rattle.std.specs.Prelude.{◌≡◌, true, List, [], ℕ, ◌+◌, ◌*◌, ◌/◌, ◌%◌, ◌≤◌, ◌<◌, min, Float, length, get_or};
ghost use Rattle.std.specs.Float.{nan};
ghost use Rattle.raw.specs.Facts.Front.{RawWithin};
ghost use Rattle.rawtags.specs.Raw.{active_rows, active_columns};
ghost use Rattle.raw.specs.Stored.{levels_reading};
ghost use Rattle.reading.specs.Reading.{run};
ghost use Rattle.samples.specs.Facts.Line.{Filled, WideIn, scaled_part};
ghost use Rattle.tables.specs.Tables.{tabled};
ghost use Rattle.tables.specs.Facts.RowTables.{found, found_along, FourFound, WordIs, RowTables};

use levels::active::{ActiveColumn, ActiveRow};
use raw::front::{FileRaw, Raw};
use reading::number;
use reading::number::Order;
use samples::scaled;

// What the i-th byte finds in a table.
fn look_up(table: &[f64; 256], bytes: &[u8], i: usize) -> f64
    requires { i < length bytes.now }
    ensures { result ≡ found table.now bytes.now i }
{
    let s = bytes[i] as usize;
    table[s]
}

// What a byte finds in a table.
fn value_of(table: &[f64; 256], s: u32) -> f64
    requires { s < 256 }
    ensures { result ≡ get_or table.now s nan }
{
    table[s as usize]
}

// Four samples from the i-th on, each in a table of its own; their bytes are those of a word. All are found before one is written.
fn look_up_four(
    word: u32,
    first: &[f64; 256],
    second: &[f64; 256],
    third: &[f64; 256],
    fourth: &[f64; 256],
    i: usize,
    out: &mut [f64],
)
    requires { i + 4 ≤ length out.old }
    ensures { (x : ℕ → Float) (bytes : List ℕ) → WordIs word bytes i → FourFound x first.now second.now third.now fourth.now bytes i → Filled nan x i out.old → Filled nan x (i + 4) out.new }
{
    let a = value_of(first, word % 256);
    let b = value_of(second, word / 256 % 256);
    let c = value_of(third, word / 65536 % 256);
    let d = value_of(fourth, word / 16777216);
    out[i] = a;
    out[i + 1] = b;
    out[i + 2] = c;
    out[i + 3] = d;
}

// Samples from the first on, four at a time; how many. Each word of four bytes is read before the one before it is looked up: of a word
// that is read where it is used the compiler makes four reads.
fn look_up_fours(
    bytes: &[u8],
    first: &[f64; 256],
    second: &[f64; 256],
    third: &[f64; 256],
    fourth: &[f64; 256],
    out: &mut [f64],
) -> usize
    requires { length out.old ≤ length bytes.now }
    ensures { (result ≤ length out.old) × (result % 4 ≡ 0) × ((x : ℕ → Float) → ((j : ℕ) → FourFound x first.now second.now third.now fourth.now bytes.now (4 * j)) → Filled nan x result out.new) }
{
    if out.len() < 4 {
        return 0;
    }
    let last = out.len() / 4 - 1;
    let mut word = number::long(bytes, Order::Little, 0);
    for j in 0..last {
        let next = number::long(bytes, Order::Little, 4 * j + 4);
        look_up_four(word, first, second, third, fourth, 4 * j, out);
        word = next;
    }
    4 * last
}

// So many samples from one on, each in the table of its own column; the tables stand from a first one on.
fn look_up_group(
    bytes: &[u8],
    tables: &[[f64; 256]],
    first: usize,
    count: usize,
    at: usize,
    out: &mut [f64],
)
    requires { (length out.old ≤ length bytes.now) × (first + count ≤ length tables.now) × (at + count ≤ length out.old) }
    ensures { (x : ℕ → Float) → ((c : ℕ) → c < count → found (get_or tables.now (first + c) []) bytes.now (at + c) ≡ x (at + c)) → Filled nan x at out.old → Filled nan x (at + count) out.new }
{
    for c in 0..count {
        out[at + c] = look_up(&tables[first + c], bytes, at + c);
    }
}

// The samples of the group that begins at one, or as many of them as the part still has. A whole group is looked up by a call of its own:
// its count is every whole group's, which the compiler then works out once for all.
fn look_up_next(
    bytes: &[u8],
    tables: &[[f64; 256]],
    first: usize,
    columns: usize,
    at: usize,
    out: &mut [f64],
)
    requires { (length out.old ≤ length bytes.now) × (first + columns ≤ length tables.now) × (at ≤ length out.old) }
    ensures { (x : ℕ → Float) → ((c : ℕ) → c < columns → found (get_or tables.now (first + c) []) bytes.now (at + c) ≡ x (at + c)) → Filled nan x at out.old → Filled nan x (min (at + columns) (length out.old)) out.new }
{
    let left = out.len() - at;
    if columns <= left {
        look_up_group(bytes, tables, first, columns, at, out);
    } else {
        look_up_group(bytes, tables, first, left, at, out);
    }
}

// The samples from one on, in the tables of columns that come again.
fn look_up_groups(
    bytes: &[u8],
    tables: &[[f64; 256]],
    first: usize,
    columns: usize,
    from: usize,
    out: &mut [f64],
)
    requires { (length out.old ≤ length bytes.now) × (1 ≤ columns) × (first + columns ≤ length tables.now) × (from ≤ length out.old) × (from % columns ≡ 0) }
    ensures { Filled nan (found_along tables.now first columns bytes.now) from out.old → Filled nan (found_along tables.now first columns bytes.now) (length out.old) out.new }
{
    for at in (from..out.len()).step_by(columns) {
        look_up_next(bytes, tables, first, columns, at, out);
    }
}

// A row's samples in the tables of columns that come again. Of fewer than two fours none is looked up as a four, so they go by groups.
fn look_up_row(bytes: &[u8], tables: &[[f64; 256]], first: usize, columns: usize, out: &mut [f64])
    requires { (length out.old ≤ length bytes.now) × (1 ≤ columns) × (columns ≤ 8) × (first + columns ≤ length tables.now) }
    ensures { Filled nan (found_along tables.now first columns bytes.now) (length out.old) out.new }
{
    if 8 <= out.len() && 4 % columns == 0 {
        let done = look_up_fours(
            bytes,
            &tables[first],
            &tables[first + 1 % columns],
            &tables[first + 2 % columns],
            &tables[first + 3 % columns],
            out,
        );
        look_up_groups(bytes, tables, first, columns, done, out);
    } else {
        look_up_groups(bytes, tables, first, columns, 0, out);
    }
}

// The scaled values of the part of an active row from an active column on; the tables of its cells stand from a first one on. The file is a
// parameter of its own: of a slice in a struct it is not told that its numbers are bytes.
pub fn table_row(
    file: &[u8],
    order: Order,
    raw: Raw,
    row: ActiveRow,
    column: ActiveColumn,
    tables: &[[f64; 256]],
    first: usize,
    out: &mut [f64],
)
    requires raw_in { RawWithin file.now order raw × (row.0 < active_rows raw.tags.area) × (column.0 < active_columns raw.tags.area) × WideIn raw.tags column.0 (length out.old) }
    requires tags_value { (tabled raw.tags ≡ true) × (1 ≤ length out.old) × RowTables (run file.now (levels_reading order raw.tags)) row.0 column.0 (length out.old) tables.now first }
    ensures { out.new ≡ scaled_part file.now order raw.tags row.0 column.0 out.old }
{
    let columns = raw.tags.levels.repeat.columns.min(out.len());
    let line = scaled::line_of(FileRaw { file, order, raw }, row, column);
    let place = line.place;
    let end = place + out.len();
    look_up_row(&file[place..end], tables, first, columns, out);
}
