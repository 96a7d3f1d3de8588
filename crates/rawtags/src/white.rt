// The linearization table and the white levels: LinearizationTable, WhiteLevel.
ghost use Rattle.std.specs.Prelude.{◌≡◌, length};
ghost use Rattle.directory.specs.Facts.Out.{out};
ghost use Rattle.reading.specs.Reading.{run};
ghost use Rattle.directory.specs.Facts.Tag.{ValuesIn};
ghost use Rattle.rawtags.specs.White.{white_rule, white_reading, table_rule, table_reading};
ghost use Rattle.rawtags.specs.Facts.White.{WhitesIn};

use directory::refusal::Refusal;
use directory::tag::{Kinds, Range, Rule, Values};
use directory::{Directory, names, tag};

// WhiteLevel.
pub fn white_of(dir: Directory, samples: usize) -> Result<Values, Refusal>
    ensures { (out result ≡ run dir.entry.file.now (white_reading dir.entry.ifd samples)) × WhitesIn dir.entry.file.now dir.entry.ifd.order (white_rule samples) result }
{
    let rule = Rule::optional(names::WHITE_LEVEL, Kinds::ShortOrLong, samples);
    tag::all(dir, rule, Range::new(0, 0, 65535))
}

// LinearizationTable.
#[tactic(auto, unfolding(crate::specs::White::table_reading))]
pub fn table_of(dir: Directory) -> Result<Values, Refusal>
    ensures { (out result ≡ run dir.entry.file.now (table_reading dir.entry.ifd)) × ValuesIn (length dir.entry.file.now) table_rule result }
{
    // least and most differ, so no constructor says it shorter
    let rule = Rule {
        tag: names::LINEARIZATION_TABLE,
        kinds: Kinds::Short,
        required: false,
        least: 1,
        most: 65536,
    };
    tag::look_up(dir, rule)
}
