// An opcode's grid: every pitch-th row from Top, column from Left, on its planes.
ghost use Rattle.std.specs.Prelude.{◌≡◌, ℕ, ◌+◌, ◌<◌, ◌≤◌, length};
ghost use Rattle.reading.specs.Bytes.{part};
ghost use Rattle.opcodes.specs.Grid.{long_of, every_of, on_of, lines_of, grid_of, inside_of, planes_fit, fits_of};

use levels::active::{ActiveColumn, ActiveRow};
use reading::number;
use reading::number::Order;

// The active frame's size.
#[derive(Clone, Copy)]
pub struct Size {
    pub rows: usize,
    pub columns: usize,
    pub samples: usize,
}

#[derive(Clone, Copy)]
pub struct Grid {
    pub top: usize,
    pub left: usize,
    pub bottom: usize,
    pub right: usize,
    pub plane: usize,
    pub planes: usize,
    pub row_pitch: usize,
    pub column_pitch: usize,
}

// Whether n is one of first, first + pitch, .. below end.
pub fn every(first: usize, end: usize, pitch: usize, n: usize) -> bool
    requires { 1 ≤ pitch }
    ensures { result ≡ every_of first end pitch n }
{
    first <= n && n < end && (n - first) % pitch == 0
}

// Whether a sample is on the grid.
pub fn on(grid: Grid, row: ActiveRow, column: ActiveColumn, plane: usize) -> bool
    requires { (1 ≤ grid.row_pitch) × (1 ≤ grid.column_pitch) × (grid.plane < 0x1_0000_0000) × (grid.planes < 0x1_0000_0000) }
    ensures { result ≡ on_of grid row.0 column.0 plane }
{
    every(grid.top, grid.bottom, grid.row_pitch, row.0)
        && every(grid.left, grid.right, grid.column_pitch, column.0)
        && grid.plane <= plane
        && plane < grid.plane + grid.planes
}

// How many rows or columns a grid has.
pub fn lines(first: usize, end: usize, pitch: usize) -> usize
    requires { (first ≤ end) × (end ≤ 16384) × (1 ≤ pitch) × (pitch < 0x1_0000_0000) }
    ensures { result ≡ lines_of first end pitch }
{
    (end - first).div_ceil(pitch)
}

// A LONG of the list.
pub fn field(file: &[u8], at: usize) -> usize
    requires { at + 4 ≤ length file.now }
    ensures { (result ≡ long_of file.now at) × (result < 0x1_0000_0000) }
{
    number::long(file, Order::Big, at) as usize
}

// The grid whose eight LONGs stand at a place.
pub fn grid_at(file: &[u8], at: usize) -> Grid
    requires { at + 32 ≤ length file.now }
    ensures by_index { (n : ℕ) → 32 ≤ n → result ≡ grid_of (part file.now at n) }
    ensures plane_bound { (result.plane < 0x1_0000_0000) × (result.planes < 0x1_0000_0000) × (result.row_pitch < 0x1_0000_0000) × (result.column_pitch < 0x1_0000_0000) }
{
    Grid {
        top: field(file, at),
        left: field(file, at + 4),
        bottom: field(file, at + 8),
        right: field(file, at + 12),
        plane: field(file, at + 16),
        planes: field(file, at + 20),
        row_pitch: field(file, at + 24),
        column_pitch: field(file, at + 28),
    }
}

fn inside(first: usize, end: usize, most: usize) -> bool
    ensures { result ≡ inside_of first end most }
{
    first < end && end <= most
}

fn planes_fit(size: Size, grid: Grid) -> bool
    requires { (grid.plane < 0x1_0000_0000) × (grid.planes < 0x1_0000_0000) }
    ensures { result ≡ planes_fit size grid }
{
    1 <= grid.planes
        && grid.plane + grid.planes <= size.samples
        && 1 <= grid.row_pitch
        && 1 <= grid.column_pitch
}

// Whether the grid lies in the frame.
pub fn fits(size: Size, grid: Grid) -> bool
    requires { (grid.plane < 0x1_0000_0000) × (grid.planes < 0x1_0000_0000) }
    ensures { result ≡ fits_of size grid }
{
    inside(grid.top, grid.bottom, size.rows)
        && inside(grid.left, grid.right, size.columns)
        && planes_fit(size, grid)
}
