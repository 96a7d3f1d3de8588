// The C interface: each function dng_NAME makes the call of its name and hands over its whole answer; `packed` puts number and
// detail in one.
#![tactic(auto)]

ghost use Rattle.std.specs.Prelude.{◌≡◌, ◌≤◌, ◌<◌, Ok};
ghost use Rattle.develop.specs.Calls.{spot_call, window_call, colour_window_call};
ghost use Rattle.chain.specs.Chain.{slices, answer_of, chain_call};
ghost use Rattle.demand.specs.Card.{card_call};
ghost use Rattle.half.specs.Half.{half_window_call};
ghost use Rattle.dng.specs.Interface.{numbers_of, chain_numbers_of, packed_of, number_in, detail_in};

use chain::SpotChain;
use demand::card;
use develop::{colour_window, spot, table_window, window};
use directory::refusal::Refusal;
use half::half_window;

// Number, detail, active rows, active columns, samples, opcodes kept, opcodes skipped, crop left, crop top, crop columns, crop rows.
#[unsafe(no_mangle)]
pub extern "C" fn dng_card(file: &[u8], numbers: &mut [u64; 11])
    ensures { numbers.new ≡ numbers_of (card_call file.now) }
{
    let answer = card::card(file);
    let (number, detail) = told(answer);
    let card = answer.unwrap_or(card::no_card());
    *numbers = [
        number as u64,
        detail as u64,
        card.rows as u64,
        card.columns as u64,
        card.samples as u64,
        card.kept as u64,
        card.skipped as u64,
        card.crop.left as u64,
        card.crop.top as u64,
        card.crop.columns as u64,
        card.crop.rows as u64,
    ];
}

// An answer's number and detail.
fn told<T: Drop>(answer: Result<T, Refusal>) -> (usize, usize)
    ensures { (result.0 ≡ number_in answer) × (result.0 < 16) × (result.1 ≡ detail_in answer) }
{
    match answer {
        Ok(_) => (0, 0),
        Err(refusal) => (refusal.number(), refusal.detail()),
    }
}

// The two in one: number * 2^32 + detail.
fn packed<T: Drop>(answer: Result<T, Refusal>) -> u64
    requires { detail_in answer < 0x1_0000_0000 }
    ensures { result ≡ packed_of (number_in answer) (detail_in answer) }
{
    let (number, detail) = told(answer);
    (number * 0x1_0000_0000 + detail) as u64
}

#[unsafe(no_mangle)]
pub extern "C" fn dng_window(
    file: &[u8],
    top: usize,
    left: usize,
    height: usize,
    width: usize,
    out: &mut [f64],
) -> u64
    ensures value { result ≡ packed_of (window_call file.now top left height width out.old).number (window_call file.now top left height width out.old).detail }
    ensures out_after { out.new ≡ (window_call file.now top left height width out.old).slice }
{
    let answer = window::window(file, top, left, height, width, out);
    packed(answer)
}

#[unsafe(no_mangle)]
pub extern "C" fn dng_table_window(
    file: &[u8],
    top: usize,
    left: usize,
    height: usize,
    width: usize,
    out: &mut [f64],
) -> u64
    ensures { let w = window_call file.now top left height width out.old in (result ≡ packed_of w.number w.detail) × (out.new ≡ w.slice) }
{
    let answer = table_window::table_window(file, top, left, height, width, out);
    packed(answer)
}

#[unsafe(no_mangle)]
pub extern "C" fn dng_spot(
    file: &[u8],
    row: usize,
    column: usize,
    plane: usize,
    value: &mut f64,
) -> u64
    ensures value { result ≡ packed_of (spot_call file.now row column plane).number (spot_call file.now row column plane).detail }
    ensures value_after { value.new ≡ (spot_call file.now row column plane).value }
{
    let answer = spot::spot(file, row, column, plane);
    *value = answer.unwrap_or(0.0);
    packed(answer)
}

#[unsafe(no_mangle)]
pub extern "C" fn dng_colour_window(
    file: &[u8],
    top: usize,
    left: usize,
    height: usize,
    width: usize,
    out: &mut [f64],
) -> u64
    ensures value { result ≡ packed_of (colour_window_call file.now top left height width out.old).number (colour_window_call file.now top left height width out.old).detail }
    ensures out_after { out.new ≡ (colour_window_call file.now top left height width out.old).slice }
{
    let answer = colour_window::colour_window(file, top, left, height, width, out);
    packed(answer)
}

#[unsafe(no_mangle)]
pub extern "C" fn dng_half_window(
    file: &[u8],
    top: usize,
    left: usize,
    height: usize,
    width: usize,
    out: &mut [f64],
) -> u64
    ensures value { result ≡ packed_of (half_window_call file.now top left height width out.old).number (half_window_call file.now top left height width out.old).detail }
    ensures out_after { out.new ≡ (half_window_call file.now top left height width out.old).slice }
{
    let answer = half_window::half_window(file, top, left, height, width, out);
    packed(answer)
}

// Stored sample, table value, cell's black, column delta, row delta, B, M, L, opcodes covering, opcodes skipped.
fn chain_numbers(chain: SpotChain) -> [i64; 10]
    requires { (chain.covering ≤ 32) × (chain.skipped ≤ 32) }
    ensures { result ≡ chain_numbers_of (answer_of (Ok chain)) }
{
    let levels = chain.levels;
    [
        levels.stored as i64,
        levels.table_value as i64,
        levels.cell,
        levels.column_delta,
        levels.row_delta,
        levels.black,
        levels.greatest_black,
        levels.level as i64,
        chain.covering as i64,
        chain.skipped as i64,
    ]
}

#[unsafe(no_mangle)]
pub extern "C" fn dng_chain(
    file: &[u8],
    row: usize,
    column: usize,
    plane: usize,
    numbers: &mut [i64; 10],
    value: &mut f64,
    places: &mut [u64],
    ids: &mut [u64],
    before: &mut [f64],
    after: &mut [f64],
    skipped: &mut [u64],
) -> u64
    ensures value { result ≡ packed_of (chain_call file.now row column plane (slices places.old ids.old before.old after.old skipped.old)).answer.number (chain_call file.now row column plane (slices places.old ids.old before.old after.old skipped.old)).answer.detail }
    ensures numbers_after { (numbers.new ≡ chain_numbers_of (chain_call file.now row column plane (slices places.old ids.old before.old after.old skipped.old)).answer) × (value.new ≡ (chain_call file.now row column plane (slices places.old ids.old before.old after.old skipped.old)).answer.value) }
    ensures skipped_after { slices places.new ids.new before.new after.new skipped.new ≡ (chain_call file.now row column plane (slices places.old ids.old before.old after.old skipped.old)).lent }
{
    let answer = chain::chain(
        file, row, column, plane, places, ids, before, after, skipped,
    );
    let chain = answer.unwrap_or(chain::no_chain());
    *numbers = chain_numbers(chain);
    *value = chain.value;
    packed(answer)
}
