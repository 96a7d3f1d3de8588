// Samples that stand one behind the other, each with its black and its plane's reciprocal.
ghost use Rattle.std.specs.Prelude.{◌≡◌, ℕ, ◌+◌, ◌*◌, ◌≤◌, ◌<◌, ℤ, length};
ghost use Rattle.std.specs.Float.{nan};
ghost use Rattle.reading.specs.Bytes.{part};
ghost use Rattle.reading.specs.Number.{number_of};
ghost use Rattle.levels.specs.Level.{difference_of, level_of, scaled_of};
ghost use Rattle.samples.specs.Facts.Line.{Filled, number_at, line_value, LineIn, Levelled};

use levels::{reciprocal, table};
use reading::number;
use reading::number::Order;

// How the samples are read, the first at a place, the table's place and count, and the row's delta.
#[derive(Clone, Copy)]
pub struct Line {
    pub order: Order,
    pub bytes: usize,
    pub place: usize,
    pub table: usize,
    pub count: usize,
    pub down: f64,
}

// The scaled values of samples whose numbers a function gives.
fn scaled_with<F: Fn(usize) -> u16>(
    number: F,
    down: f64,
    blacks: &[f64],
    inverses: &[f64],
    out: &mut [f64],
)
    requires callable { (k : ℕ) → k < length out.old → F.pre number k }
    requires out_in_bounds { (length out.old ≤ length blacks.now) × (length out.old ≤ length inverses.now) }
    ensures { (n : ℕ → ℕ) → ((k v : ℕ) → k < length out.old → F.post number k v → v ≡ n k) → (black span : ℕ → ℤ) → Levelled black span blacks.now inverses.now down (length out.old) → Filled nan (λ (k : ℕ). scaled_of (level_of (difference_of (n k) (black k)) (span k))) (length out.old) out.new }
{
    for (i, value) in out.iter_mut().enumerate() {
        *value = reciprocal::scaled_by(number(i), blacks[i] + down, inverses[i]);
    }
}

// SHORTs without a table.
fn scaled_shorts(line: Line, file: &[u8], blacks: &[f64], inverses: &[f64], out: &mut [f64])
    requires line_in { LineIn file.now line (length out.old) × (line.bytes ≡ 2) × (line.count ≡ 0) }
    requires out_in_bounds { (length out.old ≤ length blacks.now) × (length out.old ≤ length inverses.now) }
    ensures { (black span : ℕ → ℤ) → Levelled black span blacks.now inverses.now line.down (length out.old) → Filled nan (line_value file.now line black span) (length out.old) out.new }
{
    let order = line.order;
    let place = line.place;
    let number = |i| number::short(file, order, place + 2 * i);
    scaled_with(number, line.down, blacks, inverses, out);
}

// The i-th sample from a place on. The width is a literal in each arm, so that the compiler can take several at a time.
fn stored_at(file: &[u8], order: Order, bytes: usize, place: usize, i: usize) -> u16
    requires { (place + bytes * i + bytes ≤ length file.now) × (1 ≤ bytes) × (bytes ≤ 2) }
    ensures { result ≡ number_of order (part file.now (place + bytes * i) bytes) }
{
    if bytes == 1 {
        number::byte(file, order, place + i)
    } else {
        number::short(file, order, place + 2 * i)
    }
}

// The numbers of samples, through the table.
fn fill_numbers(line: Line, file: &[u8], out: &mut [u16])
    requires { LineIn file.now line (length out.old) }
    ensures { Filled 0 (number_at file.now line) (length out.old) out.new }
{
    let order = line.order;
    let bytes = line.bytes;
    let place = line.place;
    let table = line.table;
    let count = line.count;
    for (i, number) in out.iter_mut().enumerate() {
        let stored = stored_at(file, order, bytes, place, i);
        *number = table::through(file, order, table, count, stored);
    }
}

// The numbers first, and then their scaled values; with room for the numbers.
fn scaled_with_room(
    line: Line,
    file: &[u8],
    blacks: &[f64],
    inverses: &[f64],
    room: &mut [u16],
    out: &mut [f64],
)
    requires line_in { LineIn file.now line (length out.old) × (length out.old ≤ length room.old) }
    requires out_in_bounds { (length out.old ≤ length blacks.now) × (length out.old ≤ length inverses.now) }
    ensures { (black span : ℕ → ℤ) → Levelled black span blacks.now inverses.now line.down (length out.old) → Filled nan (line_value file.now line black span) (length out.old) out.new }
{
    let n = out.len();
    fill_numbers(line, file, &mut room[0..n]);
    scaled_with(|i| room[i], line.down, blacks, inverses, out);
}

// The same, with room of its own.
fn scaled_by_numbers(line: Line, file: &[u8], blacks: &[f64], inverses: &[f64], out: &mut [f64])
    requires line_in { LineIn file.now line (length out.old) × (length out.old ≤ 512) }
    requires out_in_bounds { (length out.old ≤ length blacks.now) × (length out.old ≤ length inverses.now) }
    ensures { (black span : ℕ → ℤ) → Levelled black span blacks.now inverses.now line.down (length out.old) → Filled nan (line_value file.now line black span) (length out.old) out.new }
{
    let mut room: [u16; 512] = [0; 512];
    scaled_with_room(line, file, blacks, inverses, &mut room, out);
}

// Any line. Only SHORTs without a table are read and scaled in one loop: of bytes the compiler takes more at a time than of f64, and
// in a table each number is looked up alone.
pub fn scaled_line(line: Line, file: &[u8], blacks: &[f64], inverses: &[f64], out: &mut [f64])
    requires line_in { LineIn file.now line (length out.old) × (length out.old ≤ 512) }
    requires out_in_bounds { (length out.old ≤ length blacks.now) × (length out.old ≤ length inverses.now) }
    ensures { (black span : ℕ → ℤ) → Levelled black span blacks.now inverses.now line.down (length out.old) → Filled nan (line_value file.now line black span) (length out.old) out.new }
{
    if line.count != 0 {
        scaled_by_numbers(line, file, blacks, inverses, out);
        return;
    }
    if line.bytes == 1 {
        scaled_by_numbers(line, file, blacks, inverses, out);
    } else {
        scaled_shorts(line, file, blacks, inverses, out);
    }
}
