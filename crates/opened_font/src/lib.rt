// An opened font: the part of the store that its file occupies, with its height and its first character. Two thin functions have
// that struct, `open` and `lookup`; callers use `glyph_of`, which has plain parameters.
#![tactic(auto)]

ghost use Rattle.std.specs.Prelude.{◌≡◌};
ghost use Rattle.opened_font.specs.Glyphs.{font_of, glyph_in, glyph_of};

use fonts::{entry_at, first, height, last};

#[derive(Clone, Copy)]
pub struct Font<'a> {
    pub file: &'a [u8],
    pub height: u8,
    pub first: u8,
}

// Where the rows of a character are in the file, and its box.
#[derive(Clone, Copy)]
pub struct Glyph {
    pub offset: usize,
    pub width: u8,
    pub height: u8,
}

// A character of the font that a file is, of this height and from this character on.
fn glyph_in(file: &[u8], height: u8, first: u8, character: u8) -> Option<Glyph>
    ensures { result ≡ glyph_in file.now height first character }
{
    if character < first {
        return None;
    }
    if last(file) < character {
        return None;
    }
    let e = entry_at(file, character - first);
    Some(Glyph {
        offset: e.offset,
        width: e.width,
        height,
    })
}

pub fn open<'a>(file: &'a [u8]) -> Font<'a>
    ensures { result ≡ font_of file.entry }
{
    let height = height(file);
    let first = first(file);
    Font {
        file,
        height,
        first,
    }
}

pub fn lookup<'a>(font: Font<'a>, character: u8) -> Option<Glyph>
    ensures { result ≡ glyph_in font.entry.file.now font.entry.height font.entry.first character }
{
    glyph_in(font.file, font.height, font.first, character)
}

// The glyph of a character in a font's file.
pub fn glyph_of(file: &[u8], character: u8) -> Option<Glyph>
    ensures { result ≡ glyph_of file.now character }
{
    lookup(open(file), character)
}
