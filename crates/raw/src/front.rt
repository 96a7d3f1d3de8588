// From a file's bytes to its raw directory: refusals 1 to 9.
ghost use Rattle.std.specs.Prelude.{◌≡◌, length};
ghost use Rattle.directory.specs.Facts.Out.{out};
ghost use Rattle.reading.specs.Reading.{run, run_whole};
ghost use Rattle.raw.specs.Front.{raw_reading, front_reading};
ghost use Rattle.raw.specs.Facts.Front.{RawIn, RawWithin, RawWithin-prop, FrontIn};

use crate::spans;
use crate::spans::Spans;
use directory::refusal::Refusal;
use directory::{Directory, Ifd, tree};
use rawtags::{FileTags, Tags};
use reading::number::Order;

// The raw directory's tags, and S of each plane.
#[derive(Clone, Copy)]
pub struct Raw {
    pub tags: Tags,
    pub spans: Spans,
}

// The same of a file and its byte order: its tags' values stand in the file, and S is that of its levels.
#[derive(Clone, Copy)]
pub struct FileRaw<'a> {
    pub file: &'a [u8],
    pub order: Order,
    pub raw: Raw,
    ghost within: { RawWithin file.now order raw } by { RawWithin-prop file.now order raw },
}

// IFD 0, the raw directory, the byte order, and what the raw directory says.
#[derive(Clone, Copy)]
pub struct Picture {
    pub first: Ifd,
    pub directory: Ifd,
    pub order: Order,
    pub raw: Raw,
}

// The raw tags, then refusal 9.
fn raw_of(dir: Directory) -> Result<Raw, Refusal>
    ensures { (out result ≡ run dir.entry.file.now (raw_reading (length dir.entry.file.now) dir.entry.ifd)) × RawIn dir.entry.file.now dir.entry.ifd.order result }
{
    let order = dir.ifd.order;
    let tags = rawtags::tags_of(dir)?;
    let file = dir.file;
    let source = FileTags { file, order, tags };
    let spans = spans::spans_of(source)?;
    Ok(Raw { tags, spans })
}

pub fn open(file: &[u8]) -> Result<Picture, Refusal>
    ensures { (out result ≡ run_whole file.now front_reading) × FrontIn file.now result }
{
    let roots = tree::open(file)?;
    let first = roots.first;
    let ifd = roots.raw;
    let order = ifd.order;
    let raw = raw_of(Directory { file, ifd })?;
    Ok(Picture {
        first,
        directory: ifd,
        order,
        raw,
    })
}
