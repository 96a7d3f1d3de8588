// The opcodes of an accepted list that cover a spot, with the values before and after each, and those that are skipped.
ghost use Rattle.std.specs.Prelude.{◌≡◌, List, ℕ, ◌+◌, ◌≤◌, ◌<◌, length, set};
ghost use Rattle.reading.specs.Bytes.{part};
ghost use Rattle.reading.specs.Reading.{run};
ghost use Rattle.directory.specs.Out.{Out.is};
ghost use Rattle.levels.specs.Clip.{clip_of};
ghost use Rattle.opcodes.specs.Opcode.{Opcode};
ghost use Rattle.opcodes.specs.OpcodeList.{header_of, class_of, opcode_reading, list_from};
ghost use Rattle.rows.specs.Facts.Part.{SizedIn};
ghost use Rattle.rows.specs.Facts.ListPart.{OpcodeRead, ListRead};
ghost use Rattle.chain.specs.Facts.Links.{OpcodesIn, OpcodesOf, touch_of, reached_with, link_into, covered_of, skips_of, marked, mark_into, skipped_of};

use directory::tag::Values;
use levels::active::{ActiveColumn, ActiveRow};
use opcodes::grid::Size;
use opcodes::list::{Class, Header};
use opcodes::{grid, list};
use rows::opcode;

// A row, a column and a plane of the active area.
#[derive(Clone, Copy)]
pub struct Spot {
    pub row: ActiveRow,
    pub column: ActiveColumn,
    pub plane: usize,
}

// The opcodes of an accepted list: so many, in the bytes from a place on, for a frame of a size.
#[derive(Clone, Copy)]
pub struct Opcodes {
    pub size: Size,
    pub count: usize,
    pub at: usize,
    pub bytes: usize,
}

// An opcode that covers the spot: its id, and the value before and after it.
#[derive(Clone, Copy)]
pub struct Link {
    pub id: usize,
    pub before: f64,
    pub after: f64,
}

// How far the list is gone through: the next opcode's index and place, how many cover the spot, and the last value.
#[derive(Clone, Copy)]
pub struct Reached {
    pub index: usize,
    pub at: usize,
    pub count: usize,
    pub value: f64,
}

// The opcodes of the list whose value is a tag's.
pub fn opcodes_of(file: &[u8], size: Size, list: Values) -> Opcodes
    requires { ListRead file.now size list.place list.count }
    ensures { OpcodesOf file.now size list result }
{
    let place = list.place;
    if list.count == 0 {
        return Opcodes {
            size,
            count: 0,
            at: place,
            bytes: 0,
        };
    }
    Opcodes {
        size,
        count: grid::field(file, place),
        at: place + 4,
        bytes: list.count - 4,
    }
}

// One opcode, its header at a place, at a spot whose value is x.
fn link_at(file: &[u8], size: Size, at: usize, header: Header, spot: Spot, x: f64) -> Option<Link>
    requires opcode_read { OpcodeRead file.now size at header × SizedIn size }
    requires x_value { clip_of x ≡ x }
    ensures { (i : ℕ) (o : Opcode) → is o ≡ run file.now (opcode_reading (class_of header) size i at header) → result ≡ touch_of o spot.row.0 spot.column.0 spot.plane x }
{
    let row = spot.row;
    let column = spot.column;
    match list::classify(header) {
        Class::Carried => {
            let after = opcode::opcode_at(file, size, at + 16, header, row, column, spot.plane, x);
            let g = grid::grid_at(file, at + 16);
            if grid::on(g, row, column, spot.plane) {
                return Some(Link {
                    id: header.id,
                    before: x,
                    after,
                });
            }
            None
        }
        Class::Optional => None,
        Class::Compulsory => None,
    }
}

// The n-th covering opcode, its index in the list and the link, into four slices.
fn write_link(
    n: usize,
    index: usize,
    link: Link,
    places: &mut [u64],
    ids: &mut [u64],
    before: &mut [f64],
    after: &mut [f64],
)
    requires { (n < length places.old) × (n < length ids.old) × (n < length before.old) × (n < length after.old) }
    ensures places_after { (places.new ≡ set places.old n index) × (ids.new ≡ set ids.old n link.id) }
    ensures before_after { (before.new ≡ set before.old n link.before) × (after.new ≡ set after.old n link.after) }
{
    places[n] = index as u64;
    ids[n] = link.id as u64;
    before[n] = link.before;
    after[n] = link.after;
}

// One opcode further.
fn next_link(
    file: &[u8],
    size: Size,
    spot: Spot,
    reached: Reached,
    places: &mut [u64],
    ids: &mut [u64],
    before: &mut [f64],
    after: &mut [f64],
) -> Reached
    requires opcode_read { OpcodeRead file.now size reached.at (header_of (part file.now reached.at 16)) × SizedIn size }
    requires value_value { (clip_of reached.value ≡ reached.value) × (reached.index < 32) × (reached.count ≤ reached.index) }
    requires in_bounds { (32 ≤ length places.old) × (32 ≤ length ids.old) × (32 ≤ length before.old) × (32 ≤ length after.old) }
    ensures by_index { (i : ℕ) (o : Opcode) → is o ≡ run file.now (opcode_reading (class_of (header_of (part file.now reached.at 16))) size i reached.at (header_of (part file.now reached.at 16))) → reached_with result places.new ids.new before.new after.new ≡ link_into spot.row.0 spot.column.0 spot.plane o (reached_with reached places.old ids.old before.old after.old) }
    ensures at_value { result.at ≡ reached.at + (16 + (header_of (part file.now reached.at 16)).length) }
{
    let place = reached.at;
    let i = reached.index;
    let n = reached.count;
    let x = reached.value;
    let h = list::header_at(file, place);
    let at = place + (16 + h.length);
    let index = i + 1;
    match link_at(file, size, place, h, spot, x) {
        None => Reached {
            index,
            at,
            count: n,
            value: x,
        },
        Some(link) => {
            let value = link.after;
            let count = n + 1;
            write_link(n, i, link, places, ids, before, after);
            Reached {
                index,
                at,
                count,
                value,
            }
        }
    }
}

// The covering opcodes of a list, at a spot whose value is x at first.
pub fn cover(
    file: &[u8],
    opcodes: Opcodes,
    spot: Spot,
    x: f64,
    places: &mut [u64],
    ids: &mut [u64],
    before: &mut [f64],
    after: &mut [f64],
) -> Reached
    requires opcodes_in { OpcodesIn file.now opcodes × (clip_of x ≡ x) }
    requires in_bounds { (32 ≤ length places.old) × (32 ≤ length ids.old) × (32 ≤ length before.old) × (32 ≤ length after.old) }
    ensures { (os : List Opcode) → is os ≡ run file.now (list_from opcodes.size opcodes.count 0 opcodes.at opcodes.bytes) → reached_with result places.new ids.new before.new after.new ≡ covered_of os spot.row.0 spot.column.0 spot.plane x places.old ids.old before.old after.old }
{
    let mut reached = Reached {
        index: 0,
        at: opcodes.at,
        count: 0,
        value: x,
    };
    for _ in 0..opcodes.count {
        let size = opcodes.size;
        reached = next_link(file, size, spot, reached, places, ids, before, after);
    }
    reached
}

// An opcode with its header: if it is skipped, its index into the n-th place of a slice. How many are skipped so far.
fn mark(header: Header, index: usize, n: usize, skipped: &mut [u64]) -> usize
    requires { (n ≤ index) × (index < 32) × (32 ≤ length skipped.old) }
    ensures { marked (index + 1) result skipped.new ≡ mark_into (skips_of (class_of header)) (marked index n skipped.old) }
{
    match list::classify(header) {
        Class::Carried => n,
        Class::Optional => {
            skipped[n] = index as u64;
            n + 1
        }
        Class::Compulsory => n,
    }
}

// The indices of the skipped opcodes of a list.
pub fn skip(file: &[u8], opcodes: Opcodes, skipped: &mut [u64]) -> usize
    requires { OpcodesIn file.now opcodes × (32 ≤ length skipped.old) }
    ensures { (os : List Opcode) → is os ≡ run file.now (list_from opcodes.size opcodes.count 0 opcodes.at opcodes.bytes) → marked opcodes.count result skipped.new ≡ skipped_of os skipped.old }
{
    let mut p = opcodes.at;
    let mut n = 0;
    for i in 0..opcodes.count {
        let h = list::header_at(file, p);
        n = mark(h, i, n, skipped);
        p += 16 + h.length;
    }
    n
}
