// One tag of a directory: presence (5), type and count (4), then each value: legal (4), carried (8).
ghost use Rattle.std.specs.Prelude.{◌≡◌, ℕ, ◌+◌, ◌*◌, ◌≤◌, ◌<◌, length};
ghost use Rattle.reading.specs.Facts.Number.{Wide};
ghost use Rattle.reading.specs.Reading.{run};
ghost use Rattle.directory.specs.Facts.Out.{out, passed};
ghost use Rattle.directory.specs.Widths.{entry_width};
ghost use Rattle.directory.specs.Facts.Widths.{WidthsIn};
ghost use Rattle.directory.specs.Tag.{found_reading, allows_of, absent_of, tested_reading, values_reading, not_carried};
ghost use Rattle.directory.specs.Facts.Tag.{FoundIn, Placed, ValuesIn, NumberIn, Numeric};
ghost use Rattle.directory.specs.Tag.{each_reading, one_reading, judged_of, all_reading};
ghost use Rattle.directory.specs.Tag.{required, optional, range};

use crate::entry::{Entry, Kind};
use crate::refusal::Refusal;
use crate::{Directory, entry};
use reading::number;
use reading::number::Order;

// A tag's entry and the place of its value or offset.
#[derive(Clone, Copy)]
pub struct Found {
    pub place: usize,
    pub entry: Entry,
}

// The types that a tag may have.
#[derive(Clone, Copy)]
pub enum Kinds {
    Byte,
    Short,
    Long,
    ShortOrLong,
    LongOrIfd,
    ShortOrRational,
    ShortLongOrRational,
    SignedRational,
    Undefined,
}

// What is asked of a tag before its values are looked at.
#[derive(Clone, Copy)]
pub struct Rule {
    pub tag: usize,
    pub kinds: Kinds,
    pub required: bool,
    pub least: usize,
    pub most: usize,
}

impl Rule {
    // Exactly n values, which must be there.
    pub fn required(tag: usize, kinds: Kinds, n: usize) -> Rule
        ensures { result ≡ required tag kinds n }
    {
        Rule {
            tag,
            kinds,
            required: true,
            least: n,
            most: n,
        }
    }

    // Exactly n values, or none.
    pub fn optional(tag: usize, kinds: Kinds, n: usize) -> Rule
        ensures { result ≡ optional tag kinds n }
    {
        Rule {
            tag,
            kinds,
            required: false,
            least: n,
            most: n,
        }
    }
}

// Where the values of a tag stand, their type, the bytes of one, and how many there are; none where the tag is absent.
#[derive(Clone, Copy)]
pub struct Values {
    pub place: usize,
    pub kind: Kind,
    pub size: usize,
    pub count: usize,
}

// What a number must be: at least legal, else 4; from one number to another, else 8.
#[derive(Clone, Copy)]
pub struct Range {
    pub legal: usize,
    pub from: usize,
    pub to: usize,
}

impl Range {
    pub fn new(legal: usize, from: usize, to: usize) -> Range
        ensures { result ≡ range legal from to }
    {
        Range { legal, from, to }
    }
}

// The first entry with a tag: of the others only the tag is read.
fn find(dir: Directory, tag: usize) -> Option<Found>
    ensures { (result ≡ run dir.entry.file.now (found_reading dir.entry.ifd tag)) × FoundIn dir.entry.ifd.widths (length dir.entry.file.now) result }
{
    let word = dir.ifd.widths.word;
    let head = 4 + word;
    let step = head + word;
    let mut p = dir.ifd.at;
    for _ in 0..dir.ifd.count {
        if number::short(dir.file, dir.ifd.order, p) as usize == tag {
            return Some(Found {
                place: p + head,
                entry: entry::header(dir.file, dir.ifd.order, dir.ifd.widths, p),
            });
        }
        p += step;
    }
    None
}

fn allows(kinds: Kinds, kind: Kind) -> bool
    ensures { result ≡ allows_of kinds kind }
{
    let kind = entry::plain(kind);
    match kinds {
        Kinds::Byte => matches!(kind, Kind::Byte),
        Kinds::Short => matches!(kind, Kind::Short),
        Kinds::Long => matches!(kind, Kind::Long),
        Kinds::ShortOrLong => matches!(kind, Kind::Short | Kind::Long),
        Kinds::LongOrIfd => matches!(kind, Kind::Long | Kind::Ifd),
        Kinds::ShortOrRational => matches!(kind, Kind::Short | Kind::Rational),
        Kinds::ShortLongOrRational => matches!(kind, Kind::Short | Kind::Long | Kind::Rational),
        Kinds::SignedRational => matches!(kind, Kind::SignedRational),
        Kinds::Undefined => matches!(kind, Kind::Undefined),
    }
}

#[tactic(auto, unfolding(crate::specs::Tag::absent_of, reading::specs::Reading::pick))]
fn absent(rule: Rule) -> Result<Values, Refusal>
    ensures { (out result ≡ absent_of rule) × ((size : ℕ) → ValuesIn size rule result) }
{
    if rule.required {
        Err(Refusal::Absent(rule.tag))
    } else {
        Ok(Values {
            place: 0,
            kind: Kind::Unknown,
            size: 0,
            count: 0,
        })
    }
}

// The entry of a tag, whose value or offset stands at a place.
fn tested(dir: Directory, rule: Rule, found: Found) -> Result<Values, Refusal>
    requires word_in_bounds { found.place + dir.ifd.widths.word ≤ length dir.file.now }
    requires placed { Placed dir.ifd.widths dir.file.now dir.ifd.order found.place found.entry }
    ensures { (out result ≡ run dir.entry.file.now (tested_reading dir.entry.ifd.widths dir.entry.ifd.order rule found.place found.entry)) × ValuesIn (length dir.entry.file.now) rule result }
{
    let entry = found.entry;
    if !allows(rule.kinds, entry.kind) {
        return Err(Refusal::Illegal(rule.tag));
    }
    if entry.count < rule.least {
        return Err(Refusal::Illegal(rule.tag));
    }
    if rule.most < entry.count {
        return Err(Refusal::Illegal(rule.tag));
    }
    let size = entry::size(entry.kind);
    let word = dir.ifd.widths.word;
    let place = if entry::fits(size, entry.count, word) {
        found.place
    } else {
        number::value(dir.file, dir.ifd.order, word, found.place)
    };
    Ok(Values {
        place,
        kind: entry.kind,
        size,
        count: entry.count,
    })
}

// A tag by its rule.
pub fn look_up(dir: Directory, rule: Rule) -> Result<Values, Refusal>
    ensures { (out result ≡ run dir.entry.file.now (values_reading dir.entry.ifd rule)) × ValuesIn (length dir.entry.file.now) rule result }
{
    match find(dir, rule.tag) {
        None => absent(rule),
        Some(found) => tested(dir, rule, found),
    }
}

// A tag that must not be there.
#[tactic(auto, using(reading::proofs::Reading::run_then, reading::proofs::Reading::run_answer), unfolding(crate::specs::Tag::not_carried))]
pub fn not_carried(dir: Directory, tag: usize) -> Result<(), Refusal>
    ensures { passed result ≡ run dir.entry.file.now (not_carried dir.entry.ifd tag) }
{
    match find(dir, tag) {
        None => Ok(()),
        Some(_) => Err(Refusal::NotCarried(tag)),
    }
}

// A number that must be in a range.
#[tactic(auto, unfolding(crate::specs::Tag::judged_of, crate::specs::Tag::range_fault, reading::specs::Reading::pick))]
pub fn judged(tag: usize, range: Range, v: usize) -> Result<usize, Refusal>
    ensures { (out result ≡ judged_of tag range v) × NumberIn range result }
{
    if v < range.legal {
        return Err(Refusal::Illegal(tag));
    }
    if v < range.from || range.to < v {
        return Err(Refusal::NotCarried(tag));
    }
    Ok(v)
}

// So many numbers from a place on, each in a range.
pub fn each(
    file: &[u8],
    order: Order,
    size: usize,
    tag: usize,
    range: Range,
    count: usize,
    place: usize,
) -> Result<(), Refusal>
    requires { (place + size * count ≤ length file.now) × (0 < count → Wide size) }
    ensures { passed result ≡ run file.now (each_reading order size tag range count place) }
{
    let mut p = place;
    for _ in 0..count {
        judged(tag, range, number::value(file, order, size, p))?;
        p += size;
    }
    Ok(())
}

// A tag that holds one number, or its default.
#[tactic(auto, using(crate::proofs::Outs::bind_refused), unfolding(crate::specs::Tag::one_reading))]
pub fn one(dir: Directory, rule: Rule, default: usize, range: Range) -> Result<usize, Refusal>
    requires numeric { Numeric rule.kinds }
    ensures { (out result ≡ run dir.entry.file.now (one_reading dir.entry.ifd rule default range)) × NumberIn range result }
{
    let v = look_up(dir, rule)?;
    if v.count == 0 {
        return judged(rule.tag, range, default);
    }
    judged(
        rule.tag,
        range,
        number::value(dir.file, dir.ifd.order, v.size, v.place),
    )
}

// A tag whose numbers must all be in a range.
#[tactic(auto, using(crate::proofs::Outs::bind_refused), unfolding(crate::specs::Tag::all_reading))]
pub fn all(dir: Directory, rule: Rule, range: Range) -> Result<Values, Refusal>
    requires numeric { Numeric rule.kinds }
    ensures { (out result ≡ run dir.entry.file.now (all_reading dir.entry.ifd rule range)) × ValuesIn (length dir.entry.file.now) rule result }
{
    let v = look_up(dir, rule)?;
    each(
        dir.file,
        dir.ifd.order,
        v.size,
        rule.tag,
        range,
        v.count,
        v.place,
    )?;
    Ok(v)
}
