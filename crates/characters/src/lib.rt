// Characters: where each goes, and what is drawn there. One that the font lacks is a black box, or is ignored.
#![tactic(auto)]

ghost use Rattle.std.specs.Prelude.{◌≡◌, ◌+◌, ◌≤◌};
ghost use Rattle.builtin_font.specs.Table.{table};
ghost use Rattle.state.specs.State.{with_text};
ghost use Rattle.rules.specs.Text.{at_point, wrapped, fitted, moved_up, is_ignored, rows, solid, drawn, missing, drawn_on, character_in, character};
ghost use Rattle.rules.specs.Fonts.{opened};
ghost use Rattle.outcome.specs.Outcome.{done_of};
ghost use Rattle.outcome.specs.Contract.{unlent, lent, told, Obeys};
ghost use Rattle.characters.specs.Places.{place_of, moved_for};

use bitmap::paint_packed;
use canvas::{Colour, WIDTH};
use directory::{part, rest};
use fonts::nominal_width;
use opened_font::glyph_of;
use outcome::{Outcome, done, put_text, refused_in_line};
use rectangle::fill_box;
use refusals::Refusal;
use scroll::scroll_up;
use state::{Port, Text};
use text::{Source, find_font};

const CARRIAGE_RETURN: u8 = 13;

const LINE_FEED: u8 = 10;

const BACKSPACE: u8 = 8;

// The size of the box that a character is drawn in.
#[derive(Clone, Copy)]
struct Size {
    width: u8,
    height: u8,
}

// Where a character goes, and by how many rows the framebuffer moves up first.
#[derive(Clone, Copy)]
struct Place {
    x: u16,
    y: u8,
    up: u16,
}

// A character that passes the last column goes to the next line, onto the framebuffer moved up, or to the top.
fn wrapped(text: Text, size: Size) -> Option<Place>
    ensures { result ≡ place_of (wrapped text size.width size.height) }
{
    if u32::from(text.x) + u32::from(size.width) <= u32::from(WIDTH) {
        return Some(Place {
            x: text.x,
            y: text.y,
            up: 0,
        });
    }
    if !text.wrap {
        return None;
    }
    let left = u16::from(text.left);
    let line = u16::from(size.height) + u16::from(text.line_space);
    let below = u16::from(text.y) + line;
    if below + u16::from(size.height) <= u16::from(text.scroll_row) {
        return Some(Place {
            x: left,
            y: below as u8,
            up: 0,
        });
    }
    if text.scroll {
        return Some(Place {
            x: left,
            y: text.y,
            up: line,
        });
    }
    Some(Place {
        x: left,
        y: text.top,
        up: 0,
    })
}

// Nowhere, too, if the box then passes the last column or the last row.
fn place_for(text: Text, size: Size, height: u8) -> Option<Place>
    ensures { result ≡ place_of (fitted height size.width size.height (wrapped text size.width size.height)) }
{
    // Taken apart here and in `make_room`: handed on whole, it goes through memory, written part by part and read in one, which waits.
    let Place { x, y, up } = wrapped(text, size)?;
    if u32::from(x) + u32::from(size.width) > u32::from(WIDTH)
        || u16::from(y) + u16::from(size.height) > u16::from(height)
    {
        return None;
    }
    Some(Place { x, y, up })
}

fn move_up(framebuffer: &mut [u8], rows: u16)
    ensures { framebuffer.new ≡ moved_up rows framebuffer.old }
{
    if rows > 0 {
        scroll_up(framebuffer, rows);
    }
}

// The place of a character of this size, on the framebuffer moved up for it.
fn make_room(framebuffer: &mut [u8], text: Text, size: Size, height: u8) -> Option<Place>
    ensures { (result ≡ place_of (fitted height size.width size.height (wrapped text size.width size.height))) × (framebuffer.new ≡ moved_for result framebuffer.old) }
{
    let Place { x, y, up } = place_for(text, size, height)?;
    move_up(framebuffer, up);
    Some(Place { x, y, up })
}

// The text point behind a character of this width at (x, y).
fn move_on(port: Port, x: u16, y: u8, width: u8) -> Outcome
    requires { x + width ≤ 240 }
    ensures { result ≡ done_of (with_text port (at_point port.text (x + width + port.text.char_space) y)) }
{
    // Copied whole, as in outcome.
    let mut text = port.text;
    text.x = x + u16::from(width) + u16::from(text.char_space);
    text.y = y;
    done(put_text(port, text))
}

// A glyph of this size from its packed rows.
fn draw_glyph(framebuffer: &mut [u8], port: Port, height: u8, size: Size, bits: &[u8]) -> Outcome
    ensures { Obeys (told height) (λ w. drawn_on w (drawn (rows bits.now) size.width size.height)) port (lent framebuffer.old framebuffer.new) unlent unlent result }
{
    let Some(Place { x, y, .. }) = make_room(framebuffer, port.text, size, height) else {
        return refused_in_line(port, Refusal::GlyphDoesNotFit);
    };
    paint_packed(framebuffer, x, y, size.width, size.height, bits);
    move_on(port, x, y, size.width)
}

// A black box of this size.
fn draw_box(framebuffer: &mut [u8], port: Port, height: u8, size: Size) -> Outcome
    ensures { Obeys (told height) (λ w. drawn_on w (drawn solid size.width size.height)) port (lent framebuffer.old framebuffer.new) unlent unlent result }
{
    let Some(Place { x, y, .. }) = make_room(framebuffer, port.text, size, height) else {
        return refused_in_line(port, Refusal::GlyphDoesNotFit);
    };
    let top = u16::from(y);
    fill_box(
        framebuffer,
        x,
        x + u16::from(size.width),
        top,
        top + u16::from(size.height),
        Colour::BLACK,
    );
    move_on(port, x, y, size.width)
}

// Whether a character is ignored where the font lacks it.
fn is_ignored(byte: u8) -> bool
    ensures { result ≡ is_ignored byte }
{
    matches!(byte, CARRIAGE_RETURN | LINE_FEED | BACKSPACE)
}

// A character that a font of this nominal width and height lacks.
fn draw_missing(framebuffer: &mut [u8], port: Port, height: u8, size: Size, byte: u8) -> Outcome
    ensures { Obeys (told height) (λ w. drawn_on w (missing byte size.width size.height)) port (lent framebuffer.old framebuffer.new) unlent unlent result }
{
    if is_ignored(byte) {
        return done(port);
    }
    draw_box(framebuffer, port, height, size)
}

// A character of a font's file, which is opened for it.
fn draw_in(framebuffer: &mut [u8], port: Port, height: u8, file: &[u8], byte: u8) -> Outcome
    ensures { Obeys (told height) (λ w. character_in w byte (opened file.now)) port (lent framebuffer.old framebuffer.new) unlent unlent result }
{
    match glyph_of(file, byte) {
        Some(glyph) => {
            let size = Size {
                width: glyph.width,
                height: glyph.height,
            };
            draw_glyph(framebuffer, port, height, size, rest(file, glyph.offset))
        }
        None => {
            let size = Size {
                width: nominal_width(file),
                height: fonts::height(file),
            };
            draw_missing(framebuffer, port, height, size, byte)
        }
    }
}

// A character of the built-in font.
fn draw_built_in(framebuffer: &mut [u8], port: Port, height: u8, byte: u8) -> Outcome
    ensures { Obeys (told height) (λ w. character_in w byte (opened table)) port (lent framebuffer.old framebuffer.new) unlent unlent result }
{
    let size = Size {
        width: builtin_font::WIDTH,
        height: builtin_font::HEIGHT,
    };
    if (builtin_font::FIRST..=builtin_font::LAST).contains(&byte) {
        let rows = builtin_font::rows(byte);
        return draw_glyph(framebuffer, port, height, size, &rows);
    }
    draw_missing(framebuffer, port, height, size, byte)
}

// Any byte but 254 outside a command.
pub fn draw_character(
    framebuffer: &mut [u8],
    store: &[u8],
    port: Port,
    height: u8,
    byte: u8,
) -> Outcome
    ensures { Obeys (told height) (λ w. character w byte) port (lent framebuffer.old framebuffer.new) (lent store.now store.now) unlent result }
{
    match find_font(store, height, port.text.font) {
        Ok(Source::BuiltIn) => draw_built_in(framebuffer, port, height, byte),
        Ok(Source::Stored { start, size }) => {
            draw_in(framebuffer, port, height, part(store, start, size), byte)
        }
        Err(refusal) => refused_in_line(port, refusal),
    }
}
