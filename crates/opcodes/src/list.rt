// The test of OpcodeList2: which opcodes are kept and which are skipped, or the refusal.
ghost use Rattle.std.specs.Prelude.{◌≡◌, true, ◌+◌, ◌*◌, ◌<◌, ◌≤◌, ◌&&◌, ◌||◌, ◌⊎◌, length, ◌==◌, nat_le};
ghost use Rattle.directory.specs.Facts.Out.{out, passed};
ghost use Rattle.reading.specs.Bytes.{part};
ghost use Rattle.reading.specs.Reading.{run};
ghost use Rattle.opcodes.specs.OpcodeList.{header_of, listed_id, class_of, table_form, polynomial_form, lines_form, form_of, refused_at, refused_in, exact_of, plain_fault, gain_map_fault, opcode_fault, opcode_reading, list_from, list_reading};
ghost use Rattle.opcodes.specs.Facts.OpcodeList.{id_of, none, counted_one, counted_on, tested};

use crate::grid::{Grid, Size};
use crate::{gain_map, grid};
use directory::refusal::Refusal;
use reading::real;

// An opcode's header; `length` is that of its parameters, in bytes. `id` is the file's number, as `header_of` has it; `kind_of`
// names it.
#[derive(Clone, Copy)]
pub struct Header {
    pub id: usize,
    pub version: usize,
    pub flags: usize,
    pub length: usize,
}

// Carried; if not, skipped (Optional) or refused by 11 (Compulsory).
#[derive(Clone, Copy)]
pub enum Class {
    Carried,
    Optional,
    Compulsory,
}

// The opcodes that are carried, ids 7 to 13.
#[derive(Clone, Copy)]
pub enum Kind {
    MapTable,
    MapPolynomial,
    GainMap,
    DeltaPerRow,
    DeltaPerColumn,
    ScalePerRow,
    ScalePerColumn,
}

// What stands behind a grid and its LONG: whether the LONG is legal, how many bytes, and how many of
// them are FLOATs or DOUBLEs.
#[derive(Clone, Copy)]
pub struct Form {
    pub legal: bool,
    pub bytes: usize,
    pub width: usize,
    pub numbers: usize,
}

// Opcodes kept, and opcodes skipped.
#[derive(Clone, Copy)]
pub struct Counts {
    pub kept: usize,
    pub skipped: usize,
}

pub fn header_at(file: &[u8], at: usize) -> Header
    requires { at + 16 ≤ length file.now }
    ensures value { result ≡ header_of (part file.now at 16) }
    ensures length_bound { result.length < 0x1_0000_0000 }
{
    Header {
        id: grid::field(file, at),
        version: grid::field(file, at + 4),
        flags: grid::field(file, at + 8),
        length: grid::field(file, at + 12),
    }
}

fn within(low: usize, n: usize, high: usize) -> bool
    ensures { result ≡ (nat_le low n && nat_le n high) }
{
    low <= n && n <= high
}

fn listed(id: usize) -> bool
    ensures { result ≡ listed_id id }
{
    within(7, id, 13)
}

// The kind of an id that is listed.
pub fn kind_of(id: usize) -> Kind
    requires { listed_id id ≡ true }
    ensures { id_of result ≡ id }
{
    match id {
        7 => Kind::MapTable,
        8 => Kind::MapPolynomial,
        9 => Kind::GainMap,
        10 => Kind::DeltaPerRow,
        11 => Kind::DeltaPerColumn,
        12 => Kind::ScalePerRow,
        _ => Kind::ScalePerColumn,
    }
}

pub fn classify(header: Header) -> Class
    ensures { result ≡ class_of header }
{
    if listed(header.id) && header.version <= 0x0107_0100 {
        Class::Carried
    } else if header.flags % 2 == 1 {
        Class::Optional
    } else {
        Class::Compulsory
    }
}

// The three forms share no field, each as its definition has it.
fn table_form(n: usize) -> Form
    requires { n < 0x1_0000_0000 }
    ensures { result ≡ table_form n }
{
    Form {
        legal: within(1, n, 65536),
        bytes: 2 * n,
        width: 2,
        numbers: 0,
    }
}

fn polynomial_form(n: usize) -> Form
    requires { n < 0x1_0000_0000 }
    ensures { result ≡ polynomial_form n }
{
    Form {
        legal: n <= 8,
        bytes: 8 * (n + 1),
        width: 8,
        numbers: n + 1,
    }
}

fn lines_form(lines: usize, n: usize) -> Form
    requires { n < 0x1_0000_0000 }
    ensures { result ≡ lines_form lines n }
{
    Form {
        legal: n == lines,
        bytes: 4 * n,
        width: 4,
        numbers: n,
    }
}

// The form of an opcode that is no GainMap.
fn form_for(grid: Grid, kind: Kind, n: usize) -> Form
    requires top_le_bottom { (grid.top ≤ grid.bottom) × (grid.bottom ≤ 16384) × (1 ≤ grid.row_pitch) × (grid.row_pitch < 0x1_0000_0000) }
    requires left_le_right { (grid.left ≤ grid.right) × (grid.right ≤ 16384) × (1 ≤ grid.column_pitch) × (grid.column_pitch < 0x1_0000_0000) }
    requires n_bound { n < 0x1_0000_0000 }
    ensures { result ≡ form_of grid (id_of kind) n }
{
    match kind {
        Kind::MapTable => table_form(n),
        Kind::MapPolynomial => polynomial_form(n),
        Kind::DeltaPerRow | Kind::ScalePerRow => {
            lines_form(grid::lines(grid.top, grid.bottom, grid.row_pitch), n)
        }
        _ => lines_form(grid::lines(grid.left, grid.right, grid.column_pitch), n),
    }
}

// Whether the FLOAT or DOUBLE at a place is refused.
fn refused_at(file: &[u8], width: usize, at: usize) -> bool
    requires { (at + width ≤ length file.now) × ((width ≡ 4) ⊎ (width ≡ 8)) }
    ensures { result ≡ refused_at width file.now at }
{
    if width == 8 {
        real::double_at(file, at).is_none()
    } else {
        real::float_at(file, at).is_none()
    }
}

fn refused_in(file: &[u8], width: usize, at: usize, n: usize) -> bool
    requires { (at + width * n ≤ length file.now) × (0 < n → (width ≡ 4) ⊎ (width ≡ 8)) }
    ensures { result ≡ refused_in width file.now at n }
{
    let mut p = at;
    for _ in 0..n {
        if refused_at(file, width, p) {
            return true;
        }
        p += width;
    }
    false
}

fn exact(form: Form, length: usize) -> bool
    requires { form.bytes < 0x1000_0000_0000 }
    ensures { result ≡ exact_of form length }
{
    form.legal && length == 36 + form.bytes
}

// An opcode's own bytes, where it is no GainMap; it is the i-th of the list.
fn test_plain(ps: &[u8], size: Size, kind: Kind, i: usize) -> Result<(), Refusal>
    requires { (size.rows ≤ 16384) × (size.columns ≤ 16384) }
    ensures { passed result ≡ tested (plain_fault size (id_of kind) ps.now) i }
{
    if ps.len() < 36 {
        return Err(Refusal::Malformed(i));
    }
    let g = grid::grid_at(ps, 0);
    if !grid::fits(size, g) {
        return Err(Refusal::Malformed(i));
    }
    let m = form_for(g, kind, grid::field(ps, 32));
    if !exact(m, ps.len()) {
        return Err(Refusal::Malformed(i));
    }
    if refused_in(ps, m.width, 36, m.numbers) {
        return Err(Refusal::NotFinite(i));
    }
    Ok(())
}

// Whether one of a GainMap's numbers is refused: four DOUBLEs, and the gains.
fn gain_map_refused(ps: &[u8], n: usize) -> bool
    requires { 76 + 4 * n ≤ length ps.now }
    ensures { result ≡ (refused_in 8 ps.now 40 4 || refused_in 4 ps.now 76 n) }
{
    refused_in(ps, 8, 40, 4) || refused_in(ps, 4, 76, n)
}

// A GainMap's own bytes; it is the i-th of the list.
fn test_gain_map(ps: &[u8], size: Size, i: usize) -> Result<(), Refusal>
    ensures { passed result ≡ tested (gain_map_fault size ps.now) i }
{
    if ps.len() < 76 {
        return Err(Refusal::Malformed(i));
    }
    let g = grid::grid_at(ps, 0);
    if !grid::fits(size, g) {
        return Err(Refusal::Malformed(i));
    }
    if !gain_map::legal(ps) {
        return Err(Refusal::Malformed(i));
    }
    let n = gain_map::count(ps);
    if ps.len() != 76 + 4 * n {
        return Err(Refusal::Malformed(i));
    }
    if gain_map_refused(ps, n) {
        return Err(Refusal::NotFinite(i));
    }
    Ok(())
}

// The parameters of the i-th opcode, in its own bytes.
fn test_parameters(ps: &[u8], size: Size, kind: Kind, i: usize) -> Result<(), Refusal>
    requires { (size.rows ≤ 16384) × (size.columns ≤ 16384) }
    ensures { passed result ≡ tested (opcode_fault size (id_of kind) ps.now) i }
{
    match kind {
        Kind::GainMap => test_gain_map(ps, size, i),
        _ => test_plain(ps, size, kind, i),
    }
}

// The i-th opcode, whose header stands at a place, counted.
fn judge(
    file: &[u8],
    size: Size,
    i: usize,
    at: usize,
    header: Header,
    counts: Counts,
) -> Result<Counts, Refusal>
    requires length_in_bounds { (at + 16 + header.length ≤ length file.now) × (size.rows ≤ 16384) × (size.columns ≤ 16384) }
    requires kept_bound { (counts.kept ≤ 32) × (counts.skipped ≤ 32) }
    ensures { out result ≡ counted_one counts (run file.now (opcode_reading (class_of header) size i at header)) }
{
    match classify(header) {
        Class::Carried => {
            let from = at + 16;
            let kind = kind_of(header.id);
            test_parameters(&file[from..from + header.length], size, kind, i)?;
            Ok(Counts {
                kept: counts.kept + 1,
                ..counts
            })
        }
        Class::Optional => Ok(Counts {
            skipped: counts.skipped + 1,
            ..counts
        }),
        Class::Compulsory => Err(Refusal::Compulsory(i)),
    }
}

// So many opcodes in the bytes from a place on.
fn test_opcodes(
    file: &[u8],
    size: Size,
    count: usize,
    at: usize,
    bytes: usize,
) -> Result<Counts, Refusal>
    requires { (at + bytes ≤ length file.now) × (size.rows ≤ 16384) × (size.columns ≤ 16384) × (count ≤ 32) }
    ensures { out result ≡ counted_on none (run file.now (list_from size count 0 at bytes)) }
{
    let mut counts = Counts {
        kept: 0,
        skipped: 0,
    };
    let mut p = at;
    let mut rest = bytes;
    for i in 0..count {
        if rest < 16 {
            return Err(Refusal::Malformed(i));
        }
        let header = header_at(file, p);
        let whole = 16 + header.length;
        if rest < whole {
            return Err(Refusal::Malformed(i));
        }
        counts = judge(file, size, i, p, header, counts)?;
        p += whole;
        rest -= whole;
    }
    if rest == 0 {
        Ok(counts)
    } else {
        Err(Refusal::Malformed(count))
    }
}

// The value of OpcodeList2: so many bytes from a place on; none of an absent tag.
pub fn test_list(file: &[u8], size: Size, at: usize, bytes: usize) -> Result<Counts, Refusal>
    requires { (at + bytes ≤ length file.now) × (size.rows ≤ 16384) × (size.columns ≤ 16384) × (0 < bytes → 4 ≤ bytes) }
    ensures { out result ≡ counted_on none (run file.now (list_reading size at bytes)) }
{
    if bytes == 0 {
        return Ok(Counts {
            kept: 0,
            skipped: 0,
        });
    }
    let count = grid::field(file, at);
    if 32 < count {
        return Err(Refusal::Compulsory(32));
    }
    test_opcodes(file, size, count, at + 4, bytes - 4)
}
