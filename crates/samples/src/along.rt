// What the rows of a window share along a part of a row.
ghost use Rattle.std.specs.Prelude.{◌≡◌, ℕ, ◌+◌, ◌*◌, ◌/◌, ◌%◌, ◌≤◌, ◌<◌, Float, length, get_or, nat_abs};
ghost use Rattle.std.specs.Float.{nan};
ghost use Rattle.levels.specs.Facts.Black.{Small};
ghost use Rattle.levels.specs.Facts.Reciprocal.{of_parts, inverse_of};
ghost use Rattle.raw.specs.Facts.Spans.{span_at};
ghost use Rattle.raw.specs.Stored.{levels_reading};
ghost use Rattle.reading.specs.Reading.{run};
ghost use Rattle.samples.specs.Facts.Along.{cell_along, span_along, AlongIn, DeltasIn};
ghost use Rattle.samples.specs.Facts.Line.{Filled, WideIn};

use levels::active::{ActiveColumn, ActiveRow};
use levels::reciprocal;
use raw::front::FileRaw;
use raw::sample;
use raw::spans::Spans;
use rawtags::{FileTags, Tags};
use reading::number::Order;

// How many numbers of a part are worked out at a time: all of them, or whole repeats.
pub fn piece(tags: Tags, len: usize) -> usize
    requires le_len { (1 ≤ len) × (1 ≤ tags.levels.repeat.rows) × (tags.levels.repeat.rows ≤ 8) × (1 ≤ tags.levels.repeat.columns) × (tags.levels.repeat.columns ≤ 8) }
    requires le_samples { (1 ≤ tags.frame.samples) × (tags.frame.samples ≤ 3) }
    ensures { (1 ≤ result) × (result ≤ 512) × ((tags.levels.repeat.rows + 1) * result ≤ 1536) × (result < len → result % (tags.levels.repeat.columns * tags.frame.samples) ≡ 0) }
{
    let rows = tags.levels.repeat.rows;
    let columns = tags.levels.repeat.columns;
    let samples = tags.frame.samples;
    let period = columns * samples;
    let most = (1536 / (rows + 1)).min(512);
    if len <= most {
        len
    } else {
        most / period * period
    }
}

// The first `period` numbers by a function of their place, and then these over and over.
fn repeated<F: Fn(usize) -> f64>(period: usize, number: F, out: &mut [f64])
    requires some { 1 ≤ period }
    requires callable { (k : ℕ) → k < period → k < length out.old → F.pre number k }
    ensures { (g : ℕ → Float) → ((k : ℕ) (x : Float) → k < period → F.post number k x → x ≡ g k) → ((k : ℕ) → g (k + period) ≡ g k) → Filled nan g (length out.old) out.new }
{
    for i in 0..period.min(out.len()) {
        out[i] = number(i);
    }
    for i in period..out.len() {
        out[i] = out[i - period];
    }
}

// The k-th cell of an active row from an active column on.
fn cell_from(source: FileTags, row: ActiveRow, column: ActiveColumn, k: usize) -> f64
    requires { (column.0 ≤ 16384) × (k < 512) }
    ensures { result ≡ of_parts (cell_along (run source.entry.file.now (levels_reading source.entry.order source.entry.tags)) source.entry.tags.frame.samples row.0 column.0 k) }
{
    let samples = source.tags.frame.samples;
    let c = ActiveColumn(column.0 + k / samples);
    reciprocal::number_of(sample::cell_at(source, row, c, k % samples))
}

// The cells of an active row from an active column on, read once for each repeat.
fn cells_row(source: FileTags, row: ActiveRow, column: ActiveColumn, out: &mut [f64])
    requires { (column.0 ≤ 16384) × (length out.old ≤ 512) }
    ensures { Filled nan (λ (k : ℕ). of_parts (cell_along (run source.entry.file.now (levels_reading source.entry.order source.entry.tags)) source.entry.tags.frame.samples row.0 column.0 k)) (length out.old) out.new }
{
    let period = source.tags.levels.repeat.columns * source.tags.frame.samples;
    repeated(period, |k| cell_from(source, row, column, k), out);
}

// The reciprocal of a plane's S.
fn inverse_at(spans: Spans, plane: usize) -> f64
    requires { nat_abs (span_at spans plane) < 0x1_0000_0000 }
    ensures { result ≡ inverse_of (span_at spans plane) }
{
    reciprocal::inverse(sample::span_at(spans, plane))
}

// The reciprocals of the planes, over and over.
fn inverses_row(source: FileRaw, out: &mut [f64])
    ensures { Filled nan (λ (k : ℕ). inverse_of (span_along (run source.entry.file.now (levels_reading source.entry.order source.entry.raw.tags)) source.entry.raw.tags.frame.samples k)) (length out.old) out.new }
{
    let samples = source.raw.tags.frame.samples;
    let spans = source.raw.spans;
    repeated(samples, |k| inverse_at(spans, k), out);
}

// The cells of each row of the repeat.
fn fill_cells(source: FileTags, column: ActiveColumn, q: usize, out: &mut [f64])
    requires { (column.0 ≤ 16384) × (q ≤ 512) × (length out.old ≡ source.tags.levels.repeat.rows * q) }
    ensures { (r k : ℕ) → r < source.entry.tags.levels.repeat.rows → k < q → get_or out.new (r * q + k) nan ≡ of_parts (cell_along (run source.entry.file.now (levels_reading source.entry.order source.entry.tags)) source.entry.tags.frame.samples r column.0 k) }
{
    let rows = source.tags.levels.repeat.rows;
    for r in 0..rows {
        let a = r * q;
        let e = a + q;
        cells_row(source, ActiveRow(r), column, &mut out[a..e]);
    }
}

// All of it, for a part from an active column on, with q numbers to a row.
pub fn fill_along(source: FileRaw, column: ActiveColumn, q: usize, out: &mut [f64])
    requires { (column.0 ≤ 16384) × (1 ≤ q) × (q ≤ 512) × (length out.old ≡ (source.raw.tags.levels.repeat.rows + 1) * q) }
    ensures { (len : ℕ) → (q < len → q % (source.entry.raw.tags.levels.repeat.columns * source.entry.raw.tags.frame.samples) ≡ 0) → AlongIn (run source.entry.file.now (levels_reading source.entry.order source.entry.raw.tags)) source.entry.raw.tags.frame.samples column.0 len out.new }
{
    let rows = source.raw.tags.levels.repeat.rows;
    let a = rows * q;
    let e = a + q;
    let tags = source.raw.tags;
    let file_tags = FileTags {
        file: source.file,
        order: source.order,
        tags,
    };
    fill_cells(file_tags, column, q, &mut out[0..a]);
    inverses_row(source, &mut out[a..e]);
}

// The columns' deltas of a part from an active column on.
pub fn fill_deltas(source: FileTags, column: ActiveColumn, out: &mut [i32])
    requires { WideIn source.tags column.0 (length out.old) × (column.0 ≤ 16384) × Small out.old }
    ensures { DeltasIn (run source.entry.file.now (levels_reading source.entry.order source.entry.tags)) source.entry.tags.frame.samples column.0 (length out.old) out.new }
{
    let deltas = source.tags.levels.column_deltas;
    let samples = source.tags.frame.samples;
    let l = column.0;
    for (i, delta) in out.iter_mut().enumerate() {
        *delta = sample::delta_at(source.file, source.order, deltas, l + i / samples) as i32;
    }
}
