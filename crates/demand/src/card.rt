// The card.
ghost use Rattle.std.specs.Prelude.{◌≡◌, ℕ};
ghost use Rattle.demand.specs.Card.{card_shown, refused_card, card_with, card_call};
ghost use Rattle.demand.specs.Demand.{MeetsDemand3};
ghost use Rattle.demand.specs.Accuracy.{HasAccurateLevels};

use directory::refusal::Refusal;
use rawtags::crop::Crop;

// Document 01's five values, and document 02's crop.
#[derive(Clone, Copy)]
pub struct FileCard {
    pub rows: usize,
    pub columns: usize,
    pub samples: usize,
    pub kept: usize,
    pub skipped: usize,
    pub crop: Crop,
}

// What a refused file shows.
pub fn no_card() -> FileCard
    ensures { (n d : ℕ) → card_shown n d result ≡ refused_card n d }
{
    FileCard {
        rows: 0,
        columns: 0,
        samples: 0,
        kept: 0,
        skipped: 0,
        crop: Crop {
            left: 0,
            top: 0,
            columns: 0,
            rows: 0,
        },
    }
}

pub fn card(file: &[u8]) -> Result<FileCard, Refusal>
    ensures value { card_with result ≡ card_call file.now }
    ensures meets_demand_3 { MeetsDemand3 file.now }
    ensures has_accurate_levels { HasAccurateLevels file.now }
{
    let view = develop::open(file)?;
    let tags = view.picture.raw.tags;
    Ok(FileCard {
        rows: view.size.rows,
        columns: view.size.columns,
        samples: view.size.samples,
        kept: view.counts.kept,
        skipped: view.counts.skipped,
        crop: tags.crop,
    })
}
