// The directory tree, down to the raw directory.
ghost use Rattle.std.specs.Prelude.{◌≡◌, ◌+◌, ◌*◌, ◌≤◌, ◌<◌, length, take};
ghost use Rattle.reading.specs.Reading.{run, run_whole};
ghost use Rattle.directory.specs.Facts.Out.{out};
ghost use Rattle.directory.specs.Facts.Widths.{WidthsIn};
ghost use Rattle.directory.specs.Facts.Shape.{Tested};
ghost use Rattle.directory.specs.Facts.Tag.{PlacedValues};
ghost use Rattle.directory.specs.Tree.{look_reading, version_rule, backward_rule, backward_reading, version_reading};
ghost use Rattle.directory.specs.Facts.Tree.{look_out, LookIn, walk_out, WalkIn, TreeIn, ChildrenIn};
ghost use Rattle.directory.specs.Tree.{visit_reading, list_visit, walk_reading, root_reading, same_bytes, offset_reading};
ghost use Rattle.directory.specs.Tree.{big_tiff_reading, tree_reading};

use crate::refusal::Refusal;
use crate::tag::{Kinds, Range, Rule, Values};
use crate::{Directory, Ifd, Widths, names, shape, tag};
use reading::number;
use reading::number::Order;

// The children of a directory: so many, whose offsets start at a place and have so many bytes.
#[derive(Clone, Copy)]
pub struct Children {
    pub place: usize,
    pub size: usize,
    pub count: usize,
}

// What a walk finds: the raw directory, or none and so many visits left.
#[derive(Clone, Copy)]
pub enum Walk {
    Raw(Ifd),
    Left(usize),
}

// IFD 0 and the raw directory.
#[derive(Clone, Copy)]
pub struct Roots {
    pub first: Ifd,
    pub raw: Ifd,
}

// NewSubfileType and SubIFDs: the children of a directory that is not the raw one.
fn inspect(dir: Directory) -> Result<Option<Children>, Refusal>
    ensures { (look_out result ≡ run dir.entry.file.now (look_reading dir.entry.ifd)) × LookIn (length dir.entry.file.now) result }
{
    let subfile = Rule::optional(names::NEW_SUBFILE_TYPE, Kinds::Long, 1);
    let any = Range::new(0, 0, 0xFFFF_FFFF_FFFF_FFFF);
    if tag::one(dir, subfile, 0, any)? == 0 {
        return Ok(None);
    }
    // least and most differ, so no constructor says it shorter
    let rule = Rule {
        tag: names::SUB_IFDS,
        kinds: Kinds::LongOrIfd,
        required: false,
        least: 1,
        most: 16,
    };
    let children = tag::look_up(dir, rule)?;
    Ok(Some(Children {
        place: children.place,
        size: children.size,
        count: children.count,
    }))
}

// DNGBackwardVersion, or its default from DNGVersion, as one number whose first byte weighs most.
fn backward(file: &[u8], version: Values, given: Values) -> usize
    requires placed_values { PlacedValues (length file.now) version_rule version }
    requires placed_values_2 { PlacedValues (length file.now) backward_rule given }
    ensures { result ≡ run file.now (backward_reading version given) }
{
    if given.count == 0 {
        let at = version.place;
        return (number::short(file, Order::Big, at) as usize) * 65536;
    }
    let at = given.place;
    number::long(file, Order::Big, at) as usize
}

// DNGVersion, DNGBackwardVersion and refusal 7.
fn check_version(dir: Directory) -> Result<usize, Refusal>
    ensures { out result ≡ run dir.entry.file.now (version_reading dir.entry.ifd) }
{
    let version = tag::look_up(dir, Rule::required(names::DNG_VERSION, Kinds::Byte, 4))?;
    let given = tag::look_up(
        dir,
        Rule::optional(names::DNG_BACKWARD_VERSION, Kinds::Byte, 4),
    )?;
    let n = backward(dir.file, version, given);
    if 0x01070100 < n {
        Err(Refusal::Version)
    } else {
        Ok(n)
    }
}

// Visits the directory at an offset, with so many levels and visits left.
#[cycle(visit_visit_children)]
fn visit(
    file: &[u8],
    order: Order,
    widths: Widths,
    depth: usize,
    at: usize,
    visits: usize,
) -> Result<Walk, Refusal>
    requires { (length file.now ≤ 67108864) × WidthsIn widths }
    ensures result_value { walk_out result ≡ run file.now (visit_reading widths (length file.now) order depth at visits) }
    ensures walk_in { WalkIn file.now result }
{
    if depth == 0 {
        return Err(Refusal::Tree);
    }
    if visits == 0 {
        return Err(Refusal::Tree);
    }
    let ifd = shape::ifd_at(file, order, widths, at)?;
    match inspect(Directory { file, ifd })? {
        None => Ok(Walk::Raw(ifd)),
        Some(children) => visit_children(file, order, widths, depth - 1, children, visits - 1),
    }
}

// Visits the children of a directory, in their order.
#[cycle(visit_visit_children)]
fn visit_children(
    file: &[u8],
    order: Order,
    widths: Widths,
    depth: usize,
    children: Children,
    visits: usize,
) -> Result<Walk, Refusal>
    requires file_len_bound { (length file.now ≤ 67108864) × WidthsIn widths }
    requires children_in { ChildrenIn (length file.now) children }
    ensures result_value { walk_out result ≡ run file.now (list_visit widths (length file.now) order depth children.size children.count children.place visits) }
    ensures walk_in { WalkIn file.now result }
{
    if children.count == 0 {
        return Ok(Walk::Left(visits));
    }
    let at = number::value(file, order, children.size, children.place);
    match visit(file, order, widths, depth, at, visits)? {
        Walk::Raw(ifd) => Ok(Walk::Raw(ifd)),
        Walk::Left(left) => {
            let others = Children {
                place: children.place + children.size,
                size: children.size,
                count: children.count - 1,
            };
            visit_children(file, order, widths, depth, others, left)
        }
    }
}

// What stands at or below IFD 0: levels 1 to 3 and fifteen visits are left.
fn walk_from(dir: Directory) -> Result<Walk, Refusal>
    requires { length dir.file.now ≤ 67108864 }
    ensures { (walk_out result ≡ run dir.entry.file.now (walk_reading (length dir.entry.file.now) dir.entry.ifd)) × WalkIn dir.entry.file.now result }
{
    let order = dir.ifd.order;
    let widths = dir.ifd.widths;
    match inspect(dir)? {
        None => Ok(Walk::Raw(dir.ifd)),
        Some(children) => visit_children(dir.file, order, widths, 3, children, 15),
    }
}

// IFD 0 at an offset, its version, and the walk from it.
fn root(file: &[u8], order: Order, widths: Widths, at: usize) -> Result<Roots, Refusal>
    requires { (length file.now ≤ 67108864) × WidthsIn widths }
    ensures { (out result ≡ run file.now (root_reading widths (length file.now) order at)) × TreeIn file.now result }
{
    let first = shape::ifd_at(file, order, widths, at)?;
    let dir = Directory { file, ifd: first };
    check_version(dir)?;
    match walk_from(dir)? {
        Walk::Raw(raw) => Ok(Roots { first, raw }),
        Walk::Left(_) => Err(Refusal::Tree),
    }
}

// Whether the file starts with these four bytes.
fn starts_with(file: &[u8], mark: &[u8; 4]) -> bool
    requires { (4 ≤ length file.now) × (length mark.now ≡ 4) }
    ensures { result ≡ same_bytes (take 4 file.now) mark.now }
{
    file.starts_with(mark)
}

// IFD 0, whose offset stands at a place.
fn root_from(file: &[u8], order: Order, widths: Widths, place: usize) -> Result<Roots, Refusal>
    requires { (length file.now ≤ 67108864) × WidthsIn widths × (place + widths.word ≤ length file.now) }
    ensures { (out result ≡ run file.now (offset_reading widths (length file.now) order place)) × TreeIn file.now result }
{
    let word = widths.word;
    root(file, order, widths, number::value(file, order, word, place))
}

// The 64-bit layout: the rest of its header first.
fn big_tiff_root(file: &[u8], order: Order) -> Result<Roots, Refusal>
    requires { length file.now ≤ 67108864 }
    ensures { (out result ≡ run file.now (big_tiff_reading (length file.now) order)) × TreeIn file.now result }
{
    if file.len() < 16 {
        return Err(Refusal::FileSize);
    }
    if number::short(file, order, 4) != 8 {
        return Err(Refusal::Signature);
    }
    if number::short(file, order, 6) != 0 {
        return Err(Refusal::Signature);
    }
    let widths = Widths {
        entries: 8,
        word: 8,
        types: 18,
    };
    root_from(file, order, widths, 8)
}

// The tree of a file: IFD 0 and the raw directory, or the first refusal of 1, 2 and the tree.
pub fn open(file: &[u8]) -> Result<Roots, Refusal>
    ensures { (out result ≡ run_whole file.now tree_reading) × TreeIn file.now result }
{
    if file.len() < 8 {
        return Err(Refusal::FileSize);
    }
    if 67108864 < file.len() {
        return Err(Refusal::FileSize);
    }
    let classic = Widths {
        entries: 2,
        word: 4,
        types: 13,
    };
    if starts_with(file, b"II*\0") {
        return root_from(file, Order::Little, classic, 4);
    }
    if starts_with(file, b"MM\0*") {
        return root_from(file, Order::Big, classic, 4);
    }
    if starts_with(file, b"II+\0") {
        return big_tiff_root(file, Order::Little);
    }
    if starts_with(file, b"MM\0+") {
        return big_tiff_root(file, Order::Big);
    }
    Err(Refusal::Signature)
}
