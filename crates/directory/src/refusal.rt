// The refusals of a file or a call, each with its detail.
ghost use Rattle.std.specs.Prelude.{◌≡◌, ◌<◌};
ghost use Rattle.directory.specs.Refusal.{number_of, detail_of};

#[derive(Clone, Copy)]
pub enum Refusal {
    // The file is too small or too large.
    FileSize,
    // It doesn't begin as a TIFF file.
    Signature,
    // A directory's shape.
    Shape,
    // A tag's type, count or value.
    Illegal(usize),
    // A required tag is absent.
    Absent(usize),
    // No raw directory at the depths and visits that are carried.
    Tree,
    // DNGBackwardVersion.
    Version,
    // A tag or a value of it that is legal and not carried.
    NotCarried(usize),
    // A white level that is not above the greatest black.
    WhiteLevel,
    // An opcode at a place of the list.
    Malformed(usize),
    // A compulsory opcode that is not carried, at a place of the list; or a list of more than 32.
    Compulsory(usize),
    // An opcode's FLOAT or DOUBLE.
    NotFinite(usize),
    // A window or a spot outside the active area, or no such plane.
    Outside,
    // A lent slice's length.
    SliceLength,
    // A colour call of a file with other planes.
    Planes,
}

impl Refusal {
    pub fn number(self) -> usize
        ensures { (result ≡ number_of self) × (result < 16) }
    {
        match self {
            Refusal::FileSize => 1,
            Refusal::Signature => 2,
            Refusal::Shape => 3,
            Refusal::Illegal(_) => 4,
            Refusal::Absent(_) => 5,
            Refusal::Tree => 6,
            Refusal::Version => 7,
            Refusal::NotCarried(_) => 8,
            Refusal::WhiteLevel => 9,
            Refusal::Malformed(_) => 10,
            Refusal::Compulsory(_) => 11,
            Refusal::NotFinite(_) => 12,
            Refusal::Outside => 13,
            Refusal::SliceLength => 14,
            Refusal::Planes => 15,
        }
    }

    // The tag, the place in the list, or 0.
    pub fn detail(self) -> usize
        ensures { result ≡ detail_of self }
    {
        match self {
            Refusal::Illegal(tag) => tag,
            Refusal::Absent(tag) => tag,
            Refusal::NotCarried(tag) => tag,
            Refusal::Malformed(place) => place,
            Refusal::Compulsory(place) => place,
            Refusal::NotFinite(place) => place,
            _ => 0,
        }
    }
}
