// The tags of the raw directory, in order of test.
#![tactic(auto)]

ghost use Rattle.std.specs.Prelude.{◌≡◌, length};
ghost use Rattle.directory.specs.Facts.Out.{out};
ghost use Rattle.reading.specs.Reading.{run};
ghost use Rattle.rawtags.specs.Raw.{tags_reading};
ghost use Rattle.rawtags.specs.Facts.Raw.{TagsIn, TagsWithin, TagsWithin-prop};

use area::Area;
use crop::Crop;
use directory::Directory;
use directory::refusal::Refusal;
use directory::tag::Values;
use frame::Dimensions;
use layout::Layout;
use level_tags::LevelTags;
use reading::number::Order;

pub mod area;
pub mod black;
pub mod crop;
pub mod frame;
pub mod layout;
pub mod level_tags;
pub mod lists;
pub mod pattern;
pub mod repeat;
pub mod strips;
pub mod white;
pub mod whole;

// What the tags say, and where their values stand.
#[derive(Clone, Copy)]
pub struct Tags {
    pub frame: Dimensions,
    pub layout: Layout,
    pub strips: Values,
    pub area: Area,
    pub levels: LevelTags,
    pub crop: Crop,
    pub list: Values,
}

// The tags of a file and its byte order; where they say that values stand, the file has them.
#[derive(Clone, Copy)]
pub struct FileTags<'a> {
    pub file: &'a [u8],
    pub order: Order,
    pub tags: Tags,
    ghost within: { TagsWithin file.now order tags } by { TagsWithin-prop file.now order tags },
}

// The tags, in order of test.
#[tactic(auto, using(crate::proofs::Chain::chain), unfolding(crate::specs::Raw::tags_reading))]
pub fn tags_of(dir: Directory) -> Result<Tags, Refusal>
    ensures { (out result ≡ run dir.entry.file.now (tags_reading (length dir.entry.file.now) dir.entry.ifd)) × TagsIn dir.entry.file.now dir.entry.ifd.order result }
{
    let frame = frame::frame_of(dir)?;
    let layout = layout::layout_of(dir, frame.samples)?;
    let strips = strips::strips_of(dir, frame, layout)?;
    let area = area::area_of(dir, frame)?;
    let rows = area.bottom - area.top;
    let columns = area.right - area.left;
    let levels = level_tags::level_tags_of(dir, frame.samples, rows, columns)?;
    let crop = crop::crop_of(dir, rows, columns)?;
    let list = lists::list_of(dir)?;
    Ok(Tags {
        frame,
        layout,
        strips,
        area,
        levels,
        crop,
        list,
    })
}
