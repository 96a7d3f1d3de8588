// M: the greatest B over the active samples of a plane. Rows a repeat apart meet the same cells, so of their deltas only the
// greatest counts, and likewise for columns: a step for each row, each column and each cell is enough.
ghost use Rattle.std.specs.Prelude.{◌≡◌, ◌≤◌, ◌<◌, nat_abs};
ghost use Rattle.reading.specs.Reading.{run};
ghost use Rattle.levels.specs.Facts.Black.{most_black, Small};
ghost use Rattle.levels.specs.Levels.{greatest_black};
ghost use Rattle.levels.specs.Facts.Residues.{greatest_delta, ByResidue, residue_black, greatest_by_residues};
ghost use Rattle.raw.specs.Stored.{blacks_reading, levels_reading};
ghost use Rattle.raw.specs.Facts.Greatest.{DeltasOf, GreatestIn};

use crate::sample;
use directory::tag;
use directory::tag::Values;
use levels::active::{ActiveColumn, ActiveRow};
use levels::black::BlackKind;
use rawtags::FileTags;
use reading::number::Order;

// The greatest deltas of the columns and of the rows, by residue: by the column and the row of the repeat that they meet.
#[derive(Clone, Copy)]
pub struct GreatestDeltas {
    pub columns: [i64; 8],
    pub rows: [i64; 8],
}

// The greatest of the deltas `first`, `first + step` .. of `n` rows or columns; of an absent tag, 0.
fn greatest_delta(
    file: &[u8],
    order: Order,
    deltas: Values,
    n: usize,
    step: usize,
    first: usize,
) -> i64
    requires deltas_of { DeltasOf file.now n deltas }
    requires n_bound { (n ≤ 16384) × (1 ≤ step) × (step ≤ 8) × (first < n) }
    ensures value { result ≡ greatest_delta (run file.now (blacks_reading order BlackKind.SignedRational deltas)) n step first }
    ensures result_bound { nat_abs result ≤ most_black }
{
    if deltas.count == 0 {
        return 0;
    }
    let times = (n - 1 - first) / step + 1;
    let mut best = sample::delta_at(file, order, deltas, first);
    for k in 1..times {
        best = best.max(sample::delta_at(file, order, deltas, first + step * k));
    }
    best
}

// The greatest deltas of `n` rows or columns by residue, of the residues that occur.
fn by_residue(file: &[u8], order: Order, deltas: Values, n: usize, step: usize) -> [i64; 8]
    requires deltas_of { DeltasOf file.now n deltas }
    requires n_bound { (n ≤ 16384) × (1 ≤ step) × (step ≤ 8) }
    ensures { ByResidue (run file.now (blacks_reading order BlackKind.SignedRational deltas)) n step result }
{
    let mut found = [0; 8];
    for i in 0..step.min(n) {
        found[i] = greatest_delta(file, order, deltas, n, step, i);
    }
    found
}

pub fn greatest_deltas(source: FileTags) -> GreatestDeltas
    ensures { GreatestIn (run source.entry.file.now (levels_reading source.entry.order source.entry.tags)) result }
{
    let area = source.tags.area;
    let repeat = source.tags.levels.repeat;
    let column_deltas = source.tags.levels.column_deltas;
    let row_deltas = source.tags.levels.row_deltas;
    let columns = by_residue(
        source.file,
        source.order,
        column_deltas,
        area.right - area.left,
        repeat.columns,
    );
    let rows = by_residue(
        source.file,
        source.order,
        row_deltas,
        area.bottom - area.top,
        repeat.rows,
    );
    GreatestDeltas { columns, rows }
}

// The greatest B of the samples whose row has residue i and whose column has residue j.
fn residue_black(source: FileTags, deltas: GreatestDeltas, plane: usize, i: usize, j: usize) -> i64
    requires plane_in { plane < source.tags.frame.samples }
    requires small { Small deltas.columns × Small deltas.rows × (i < 8) × (j < 8) }
    ensures value { result ≡ residue_black (run source.entry.file.now (levels_reading source.entry.order source.entry.tags)) deltas.columns deltas.rows plane i j }
    ensures result_bound { nat_abs result ≤ 50330880 }
{
    let columns = deltas.columns;
    let rows = deltas.rows;
    let cell = sample::cell_at(source, ActiveRow(i), ActiveColumn(j), plane);
    levels::black_sum(cell, columns[j], rows[i])
}

// The greatest B over so many residues of the rows and of the columns.
fn greatest_by_residues(
    source: FileTags,
    deltas: GreatestDeltas,
    plane: usize,
    down: usize,
    across: usize,
) -> i64
    requires plane_in { plane < source.tags.frame.samples }
    requires small { Small deltas.columns × Small deltas.rows × (1 ≤ down) × (down ≤ 8) × (1 ≤ across) × (across ≤ 8) }
    ensures value { result ≡ greatest_by_residues (run source.entry.file.now (levels_reading source.entry.order source.entry.tags)) deltas.columns deltas.rows plane down across }
    ensures result_bound { nat_abs result ≤ 50330880 }
{
    let mut best = residue_black(source, deltas, plane, 0, 0);
    for k in 1..down * across {
        best = best.max(residue_black(source, deltas, plane, k / across, k % across));
    }
    best
}

// M of a plane: the residues that occur are those below the repeat and below the active area's size.
pub fn greatest_black(source: FileTags, deltas: GreatestDeltas, plane: usize) -> i64
    requires plane_in { plane < source.tags.frame.samples }
    requires greatest_in { GreatestIn (run source.file.now (levels_reading source.order source.tags)) deltas }
    ensures value { result ≡ greatest_black (run source.entry.file.now (levels_reading source.entry.order source.entry.tags)) plane }
    ensures result_bound { nat_abs result ≤ 50330880 }
{
    let area = source.tags.area;
    let repeat = source.tags.levels.repeat;
    let rows = area.bottom - area.top;
    let columns = area.right - area.left;
    let down = repeat.rows.min(rows);
    let across = repeat.columns.min(columns);
    greatest_by_residues(source, deltas, plane, down, across)
}
