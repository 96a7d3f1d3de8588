// The chain behind a spot: the numbers behind its level, the opcodes that cover it with the values before and after each, and the
// skipped opcodes.
#![tactic(auto)]

ghost use Rattle.std.specs.Prelude.{◌≡◌, ℕ, Ok, true, length};
ghost use Rattle.raw.specs.Sample.{ActiveIn};
ghost use Rattle.develop.specs.Facts.View.{Viewed};
ghost use Rattle.chain.specs.Chain.{chain_of, slices, room_for, answer_shown, refused_answer, chained_with, shown_of, chain_call};
ghost use Rattle.chain.specs.Explained.{Explained};

use crate::links::Spot;
use develop::{View, spot};
use directory::refusal::Refusal;
use levels::LevelNumbers;
use levels::active::{ActiveColumn, ActiveRow};
use raw::front::FileRaw;
use raw::sample;

pub mod links;

// The spot's value and the numbers behind its level; how many opcodes cover the spot, and how many are skipped.
#[derive(Clone, Copy)]
pub struct SpotChain {
    pub value: f64,
    pub levels: LevelNumbers,
    pub covering: usize,
    pub skipped: usize,
}

// What a refused call shows.
pub fn no_chain() -> SpotChain
    ensures { (n d : ℕ) → answer_shown n d result ≡ refused_answer n d }
{
    SpotChain {
        value: 0.0,
        levels: LevelNumbers {
            stored: 0,
            table_value: 0,
            cell: 0,
            column_delta: 0,
            row_delta: 0,
            black: 0,
            greatest_black: 0,
            level: 0,
        },
        covering: 0,
        skipped: 0,
    }
}

// Whether five slices of these lengths have 32 places each.
fn room(places: usize, ids: usize, before: usize, after: usize, skipped: usize) -> bool
    ensures { result ≡ room_for places ids before after skipped }
{
    32 <= places && 32 <= ids && 32 <= before && 32 <= after && 32 <= skipped
}

// The chain of a spot of the active area.
fn chain_at(
    file: &[u8],
    view: View,
    spot: Spot,
    places: &mut [u64],
    ids: &mut [u64],
    before: &mut [f64],
    after: &mut [f64],
    skipped: &mut [u64],
) -> SpotChain
    requires viewed { Viewed file.now view × ActiveIn view.picture.raw.tags spot.row.0 spot.column.0 spot.plane }
    requires skipped_value { room_for (length places.old) (length ids.old) (length before.old) (length after.old) (length skipped.old) ≡ true }
    ensures { (q : Viewed file.now view) → chained_with (Ok result) (slices places.new ids.new before.new after.new skipped.new) ≡ shown_of (chain_of file.now q.file spot.row.0 spot.column.0 spot.plane) (slices places.old ids.old before.old after.old skipped.old) }
{
    let picture = view.picture;
    let order = picture.order;
    let raw = picture.raw;
    let list = raw.tags.list;
    let row = spot.row;
    let column = spot.column;
    let numbers = sample::numbers_at(FileRaw { file, order, raw }, row, column, spot.plane);
    let x = levels::scaled(numbers.level);
    let opcodes = links::opcodes_of(file, view.size, list);
    let covering = links::cover(file, opcodes, spot, x, places, ids, before, after);
    let count = links::skip(file, opcodes, skipped);
    SpotChain {
        value: covering.value,
        levels: numbers,
        covering: covering.count,
        skipped: count,
    }
}

// The chain of a spot of an accepted file: 13 and 14.
fn chain_in(
    file: &[u8],
    view: View,
    spot: Spot,
    places: &mut [u64],
    ids: &mut [u64],
    before: &mut [f64],
    after: &mut [f64],
    skipped: &mut [u64],
) -> Result<SpotChain, Refusal>
    requires { Viewed file.now view }
    ensures { chained_with result (slices places.new ids.new before.new after.new skipped.new) ≡ chain_call file.now spot.row.0 spot.column.0 spot.plane (slices places.old ids.old before.old after.old skipped.old) }
{
    if !spot::within(view.size, spot.row.0, spot.column.0, spot.plane) {
        return Err(Refusal::Outside);
    }
    if !room(
        places.len(),
        ids.len(),
        before.len(),
        after.len(),
        skipped.len(),
    ) {
        return Err(Refusal::SliceLength);
    }
    Ok(chain_at(file, view, spot, places, ids, before, after, skipped))
}

pub fn chain(
    file: &[u8],
    row: usize,
    column: usize,
    plane: usize,
    places: &mut [u64],
    ids: &mut [u64],
    before: &mut [f64],
    after: &mut [f64],
    skipped: &mut [u64],
) -> Result<SpotChain, Refusal>
    ensures skipped_after { chained_with result (slices places.new ids.new before.new after.new skipped.new) ≡ chain_call file.now row column plane (slices places.old ids.old before.old after.old skipped.old) }
    ensures explained { Explained file.now row column plane }
{
    let view = develop::open(file)?;
    let spot = Spot {
        row: ActiveRow(row),
        column: ActiveColumn(column),
        plane,
    };
    chain_in(file, view, spot, places, ids, before, after, skipped)
}
