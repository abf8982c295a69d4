// The refusals: why a command or a character was not obeyed, each with its number.
#![tactic(auto)]

ghost use Rattle.std.specs.Prelude.{◌≡◌};
ghost use Rattle.refusals.specs.Refusals.{number_of};

#[derive(Clone, Copy, Debug, PartialEq, Eq)]
pub enum Refusal {
    UnknownCommand,
    OutOfBounds,
    CornersOutOfOrder,
    NumberOutOfRange,
    UnknownType,
    NotSetUp,
    NoSuchFile,
    MalformedFile,
    NoSpace,
    NumberInUse,
    UploadAborted,
    BadWatermarks,
    GlyphDoesNotFit,
}

impl From<Refusal> for u8 {
    ghost from_gives = { λ refusal number. number ≡ number_of refusal };

    fn from(refusal: Refusal) -> u8 {
        match refusal {
            Refusal::UnknownCommand => 16,
            Refusal::OutOfBounds => 17,
            Refusal::CornersOutOfOrder => 18,
            Refusal::NumberOutOfRange => 19,
            Refusal::UnknownType => 20,
            Refusal::NotSetUp => 21,
            Refusal::NoSuchFile => 22,
            Refusal::MalformedFile => 23,
            Refusal::NoSpace => 24,
            Refusal::NumberInUse => 25,
            Refusal::UploadAborted => 26,
            Refusal::BadWatermarks => 27,
            // 28, a character that the font lacks, is no longer given.
            Refusal::GlyphDoesNotFit => 29,
        }
    }
}

// A character that the font lacks: no longer given, so no `Refusal` has this number.
pub const NO_GLYPH: u8 = 28;
