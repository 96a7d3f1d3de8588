// A table for each cell of the black level.
ghost use Rattle.std.specs.Prelude.{◌≡◌, [], ℕ, ◌+◌, ◌*◌, ◌/◌, ◌%◌, ◌≤◌, ◌<◌, ℤ, length, get_or};
ghost use Rattle.std.specs.Float.{nan};
ghost use Rattle.levels.specs.Level.{difference_of, level_of, scaled_of};
ghost use Rattle.levels.specs.Facts.Reciprocal.{BlackIs, InverseIs};
ghost use Rattle.levels.specs.Table.{table_of, through_of};
ghost use Rattle.raw.specs.Stored.{levels_reading};
ghost use Rattle.reading.specs.Reading.{run};
ghost use Rattle.tables.specs.Tables.{CellTable};

use directory::tag::Values;
use levels::active::{ActiveColumn, ActiveRow};
use levels::{reciprocal, table};
use raw::front::FileRaw;
use raw::sample;
use rawtags::FileTags;
use reading::number::Order;

// The scaled values of all bytes, from a black and the reciprocal of S, through the linearization table.
fn fill_values(
    file: &[u8],
    order: Order,
    entries: Values,
    black: f64,
    inverse: f64,
    values: &mut [f64],
)
    requires { (entries.place + 2 * entries.count ≤ length file.now) × (length values.old ≡ 256) }
    ensures { (b span : ℤ) → BlackIs b black → InverseIs span inverse → (s : ℕ) → s < 256 → get_or values.new s nan ≡ scaled_of (level_of (difference_of (through_of (table_of order file.now entries.place entries.count) s) b) span) }
{
    for s in 0..256 {
        let v = table::through(file, order, entries.place, entries.count, s as u16);
        values[s] = reciprocal::scaled_by(v, black, inverse);
    }
}

// The table of the cell at an active row and an active column.
fn fill_table(source: FileRaw, row: ActiveRow, column: ActiveColumn, values: &mut [f64])
    requires { length values.old ≡ 256 }
    ensures { CellTable (run source.entry.file.now (levels_reading source.entry.order source.entry.raw.tags)) row.0 column.0 values.new }
{
    let tags = source.raw.tags;
    let spans = source.raw.spans;
    let file_tags = FileTags {
        file: source.file,
        order: source.order,
        tags,
    };
    let cell = sample::cell_at(file_tags, row, column, 0);
    let black = reciprocal::number_of(cell);
    let inverse = reciprocal::inverse(sample::span_at(spans, 0));
    fill_values(
        source.file,
        source.order,
        tags.levels.table,
        black,
        inverse,
        values,
    );
}

// The tables of so many cells from an active row and an active column on, row by row, `columns` to a row.
pub fn fill_tables(
    source: FileRaw,
    row: ActiveRow,
    column: ActiveColumn,
    columns: usize,
    count: usize,
    tables: &mut [[f64; 256]],
)
    requires { (row.0 ≤ 16384) × (column.0 ≤ 16384) × (1 ≤ columns) × (count ≤ 64) × (count ≤ length tables.old) }
    ensures { (i : ℕ) → i < count → CellTable (run source.entry.file.now (levels_reading source.entry.order source.entry.raw.tags)) (row.0 + i / columns) (column.0 + i % columns) (get_or tables.new i []) }
{
    let r = row.0;
    let c = column.0;
    for i in 0..count {
        let mut table: [f64; 256] = [0.0; 256];
        let down = ActiveRow(r + i / columns);
        let across = ActiveColumn(c + i % columns);
        fill_table(source, down, across, &mut table);
        tables[i] = table;
    }
}
