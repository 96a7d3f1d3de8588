// 8-bit mosaics without deltas: tables of the scaled values of all 256 bytes, one for each cell of the black level, and rows of samples
// looked up in them.
#![tactic(auto)]

ghost use Rattle.std.specs.Prelude.{◌≡◌};
ghost use Rattle.tables.specs.Tables.{tabled};

use rawtags::Tags;

pub mod fill;
pub mod row;

// Whether a file's scaled values can be looked up in tables.
pub fn has_tables(tags: Tags) -> bool
    ensures { result ≡ tabled tags }
{
    tags.layout.bytes == 1
        && tags.frame.samples == 1
        && tags.levels.column_deltas.count == 0
        && tags.levels.row_deltas.count == 0
}
