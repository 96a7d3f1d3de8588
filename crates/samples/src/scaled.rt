// The scaled values of a part of a row.
ghost use Rattle.std.specs.Prelude.{◌≡◌, ℕ, ◌+◌, ◌≤◌, ◌<◌, ℤ, pos, ◌+ℤ◌, length, get_or};
ghost use Rattle.std.specs.Float.{nan, binary64};
ghost use Rattle.std.specs.Float.Ieee.{add};
ghost use Rattle.levels.specs.Facts.Black.{Small};
ghost use Rattle.levels.specs.Facts.Reciprocal.{of_parts};
ghost use Rattle.rawtags.specs.Raw.{active_rows, active_columns};
ghost use Rattle.raw.specs.Stored.{levels_reading};
ghost use Rattle.reading.specs.Reading.{run};
ghost use Rattle.samples.specs.Facts.Along.{AlongIn, DeltasIn};
ghost use Rattle.samples.specs.Facts.Line.{Filled, line_value, LineIn, Celled, Repeating, WideIn, scaled_part, LineOf};

use crate::line;
use crate::line::Line;
use levels::active::{ActiveColumn, ActiveRow};
use levels::reciprocal;
use raw::front::FileRaw;
use raw::sample;
use rawtags::FileTags;
use reading::number::Order;

// Cells with the columns' deltas from `at` on.
fn add_deltas(cells: &[f64], deltas: &[i32], at: usize, out: &mut [f64])
    requires { (length out.old ≤ length cells.now) × (at + length out.old ≤ length deltas.now) × Small deltas.now }
    ensures { Filled nan (λ (k : ℕ). add binary64 (get_or cells.now k nan) (of_parts (get_or deltas.now (at + k) (pos 0)))) (length out.old) out.new }
{
    for (i, sum) in out.iter_mut().enumerate() {
        *sum = cells[i] + reciprocal::number_of(deltas[at + i] as i64);
    }
}

// A line no longer than the cells; `at` numbers stand before it in the part that the deltas are of.
fn scaled_piece(
    line: Line,
    file: &[u8],
    cells: &[f64],
    deltas: &[i32],
    at: usize,
    inverses: &[f64],
    sums: &mut [f64],
    out: &mut [f64],
)
    requires line_in { LineIn file.now line (length out.old) × (length out.old ≤ length cells.now) × (length cells.now ≤ 512) × (length cells.now ≤ length inverses.now) }
    requires small { Small deltas.now × (0 < length deltas.now → at + length out.old ≤ length deltas.now) × (0 < length deltas.now → length cells.now ≤ length sums.old) }
    ensures sums_len_unchanged { length sums.new ≡ length sums.old }
    ensures by_index { (cell span : ℕ → ℤ) (down : ℤ) → Celled cell span down cells.now inverses.now line.down (length cells.now) → Filled nan (line_value file.now line (λ (k : ℕ). cell k +ℤ get_or deltas.now (at + k) (pos 0) +ℤ down) span) (length out.old) out.new }
{
    if deltas.len() == 0 {
        line::scaled_line(line, file, cells, inverses, out);
    } else {
        let n = out.len();
        add_deltas(cells, deltas, at, &mut sums[0..n]);
        line::scaled_line(line, file, sums, inverses, out);
    }
}

// A line of any length: the cells over and over.
fn scaled_pieces(
    line: Line,
    file: &[u8],
    cells: &[f64],
    deltas: &[i32],
    inverses: &[f64],
    sums: &mut [f64],
    out: &mut [f64],
)
    requires line_in { LineIn file.now line (length out.old) × (1 ≤ length cells.now) × (length cells.now ≤ 512) × (length cells.now ≤ length inverses.now) }
    requires small { Small deltas.now × (0 < length deltas.now → length out.old ≤ length deltas.now) × (0 < length deltas.now → length cells.now ≤ length sums.old) }
    ensures { (cell span : ℕ → ℤ) (down : ℤ) → Celled cell span down cells.now inverses.now line.down (length cells.now) → Repeating cell span (length cells.now) (length out.old) → Filled nan (line_value file.now line (λ (k : ℕ). cell k +ℤ get_or deltas.now k (pos 0) +ℤ down) span) (length out.old) out.new }
{
    let q = cells.len();
    for i in (0..out.len()).step_by(q) {
        let e = (i + q).min(out.len());
        let piece = Line {
            place: line.place + line.bytes * i,
            ..line
        };
        scaled_piece(
            piece,
            file,
            cells,
            deltas,
            i,
            inverses,
            sums,
            &mut out[i..e],
        );
    }
}

// With room for sums where columns have deltas.
fn scaled_with_deltas(
    line: Line,
    file: &[u8],
    cells: &[f64],
    deltas: &[i32],
    inverses: &[f64],
    out: &mut [f64],
)
    requires line_in { LineIn file.now line (length out.old) × (1 ≤ length cells.now) × (length cells.now ≤ 512) × (length cells.now ≤ length inverses.now) }
    requires small { Small deltas.now × (0 < length deltas.now → length out.old ≤ length deltas.now) }
    ensures { (cell span : ℕ → ℤ) (down : ℤ) → Celled cell span down cells.now inverses.now line.down (length cells.now) → Repeating cell span (length cells.now) (length out.old) → Filled nan (line_value file.now line (λ (k : ℕ). cell k +ℤ get_or deltas.now k (pos 0) +ℤ down) span) (length out.old) out.new }
{
    if deltas.len() == 0 {
        let mut none: [f64; 1] = [0.0; 1];
        scaled_pieces(line, file, cells, deltas, inverses, &mut none, out);
    } else {
        let mut sums: [f64; 512] = [0.0; 512];
        scaled_pieces(line, file, cells, deltas, inverses, &mut sums, out);
    }
}

// The line of an active row's samples from an active column on.
pub fn line_of(source: FileRaw, row: ActiveRow, column: ActiveColumn) -> Line
    requires { (row.0 < active_rows source.raw.tags.area) × (column.0 < active_columns source.raw.tags.area) }
    ensures { LineOf source.entry.file.now source.entry.order source.entry.raw.tags row.0 column.0 result }
{
    let tags = source.raw.tags;
    let area = tags.area;
    let table = tags.levels.table;
    let row_deltas = tags.levels.row_deltas;
    let bytes = tags.layout.bytes;
    let r = area.stored_row(row);
    let c = area.stored_column(column);
    let down = sample::delta_at(source.file, source.order, row_deltas, row.0);
    let file_tags = FileTags {
        file: source.file,
        order: source.order,
        tags,
    };
    Line {
        order: source.order,
        bytes,
        place: sample::place_of(file_tags, r, c, 0),
        table: table.place,
        count: table.count,
        down: reciprocal::number_of(down),
    }
}

// The scaled values of the part of an active row from an active column on.
pub fn scaled_row(
    source: FileRaw,
    row: ActiveRow,
    column: ActiveColumn,
    along: &[f64],
    deltas: &[i32],
    out: &mut [f64],
)
    requires active_in { (row.0 < active_rows source.raw.tags.area) × (column.0 < active_columns source.raw.tags.area) × WideIn source.raw.tags column.0 (length out.old) }
    requires along_in { AlongIn (run source.file.now (levels_reading source.order source.raw.tags)) source.raw.tags.frame.samples column.0 (length out.old) along.now × DeltasIn (run source.file.now (levels_reading source.order source.raw.tags)) source.raw.tags.frame.samples column.0 (length out.old) deltas.now }
    ensures { out.new ≡ scaled_part source.entry.file.now source.entry.order source.entry.raw.tags row.0 column.0 out.old }
{
    let rows = source.raw.tags.levels.repeat.rows;
    let q = along.len() / (rows + 1);
    let first = row.0 % rows * q;
    let last = rows * q;
    let line = line_of(source, row, column);
    scaled_with_deltas(
        line,
        source.file,
        &along[first..first + q],
        deltas,
        &along[last..last + q],
        out,
    );
}
