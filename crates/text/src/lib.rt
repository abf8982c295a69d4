// Text: its settings, the text point and the current font. Characters are drawn in the crate above.
// What sets a part of the port is never in line, as `refused` (outcome) is not.
#![tactic(auto)]

ghost use Rattle.std.specs.Prelude.{◌≡◌, [], ◌∷◌, ◌+◌, ◌*◌, ◌-◌, ◌<◌};
ghost use Rattle.rules.specs.World.{put_text, quietly};
ghost use Rattle.rules.specs.Text.{at_point, home, with_wrap, with_scroll, with_metrics, choose_font, set_place};
ghost use Rattle.outcome.specs.Contract.{unlent, lent, untold, told, Obeys};
ghost use Rattle.text.specs.Places.{place_by};
ghost use Rattle.text.specs.Sources.{source_of};

use canvas::WIDTH;
use directory::{BUILT_IN_FONT, FONT, MAX_NUMBER, find, part};
use fonts::{check_font, nominal_width};
use outcome::{Outcome, done, put_text, refused};
use refusals::Refusal;
use state::{Port, Text};

// Where a font lies.
#[derive(Clone, Copy)]
pub enum Source {
    BuiltIn,
    Stored { start: usize, size: usize },
}

// The text point to the margins.
#[inline(never)]
pub fn home(port: Port) -> Outcome
    ensures { Obeys untold (λ w. quietly (put_text w (home w.state.port.text))) port unlent unlent unlent result }
{
    set_point(port, port.text.left, port.text.top)
}

#[inline(never)]
pub fn set_point(port: Port, x: u8, y: u8) -> Outcome
    ensures { Obeys untold (λ w. quietly (put_text w (at_point w.state.port.text x y))) port unlent unlent unlent result }
{
    let text = Text {
        x: u16::from(x),
        y,
        ..port.text
    };
    done(put_text(port, text))
}

#[inline(never)]
pub fn set_wrap(port: Port, on: bool) -> Outcome
    ensures { Obeys untold (λ w. quietly (put_text w (with_wrap w.state.port.text on))) port unlent unlent unlent result }
{
    let text = Text {
        wrap: on,
        ..port.text
    };
    done(put_text(port, text))
}

#[inline(never)]
pub fn set_scroll(port: Port, on: bool) -> Outcome
    ensures { Obeys untold (λ w. quietly (put_text w (with_scroll w.state.port.text on))) port unlent unlent unlent result }
{
    let text = Text {
        scroll: on,
        ..port.text
    };
    done(put_text(port, text))
}

#[inline(never)]
pub fn set_metrics(
    port: Port,
    left: u8,
    top: u8,
    char_space: u8,
    line_space: u8,
    scroll_row: u8,
) -> Outcome
    ensures { Obeys untold (λ w. quietly (put_text w (with_metrics w.state.port.text (left ∷ top ∷ char_space ∷ line_space ∷ scroll_row ∷ [])))) port unlent unlent unlent result }
{
    let text = Text {
        left,
        top,
        char_space,
        line_space,
        scroll_row,
        ..port.text
    };
    done(put_text(port, text))
}

// Where the font of a number lies. One in the store is checked whole.
pub fn find_font(store: &[u8], height: u8, number: u16) -> Result<Source, Refusal>
    ensures { result ≡ source_of height store.now number }
{
    if number == BUILT_IN_FONT {
        return Ok(Source::BuiltIn);
    }
    let Some(found) = find(store, FONT, number) else {
        return Err(Refusal::NoSuchFile);
    };
    check_font(part(store, found.start, found.size), height)?;
    Ok(Source::Stored {
        start: found.start,
        size: found.size,
    })
}

// The current font.
#[inline(never)]
pub fn choose_font(store: &[u8], port: Port, height: u8, number: u16) -> Outcome
    ensures { Obeys (told height) (λ w. choose_font w number) port unlent (lent store.now store.now) unlent result }
{
    if number > MAX_NUMBER {
        return refused(port, Refusal::NumberOutOfRange);
    }
    if let Err(refusal) = find_font(store, height, number) {
        return refused(port, refusal);
    }
    let text = Text {
        font: number,
        ..port.text
    };
    done(put_text(port, text))
}

// The pixel of a column or a row, from 1.
fn pixel_of(margin: u8, place: u8, size: u8, space: u8) -> u32
    requires { 0 < place }
    ensures { result ≡ margin + (place - 1) * (size + space) }
{
    let step = u32::from(size) + u32::from(space);
    u32::from(margin) + (u32::from(place) - 1) * step
}

// The text point by column and row of a font of this nominal width and height.
fn place_by(port: Port, height: u8, nominal: u8, tall: u8, column: u8, row: u8) -> Outcome
    ensures { Obeys (told height) (λ w. place_by w column row nominal tall) port unlent unlent unlent result }
{
    if column == 0 || row == 0 {
        return refused(port, Refusal::OutOfBounds);
    }
    let x = pixel_of(port.text.left, column, nominal, port.text.char_space);
    let y = pixel_of(port.text.top, row, tall, port.text.line_space);
    if x >= u32::from(WIDTH) || y >= u32::from(height) {
        return refused(port, Refusal::OutOfBounds);
    }
    set_point(port, x as u8, y as u8)
}

#[inline(never)]
pub fn set_place(store: &[u8], port: Port, height: u8, column: u8, row: u8) -> Outcome
    ensures { Obeys (told height) (λ w. set_place w column row) port unlent (lent store.now store.now) unlent result }
{
    match find_font(store, height, port.text.font) {
        Ok(Source::BuiltIn) => {
            place_by(
                port,
                height,
                builtin_font::WIDTH,
                builtin_font::HEIGHT,
                column,
                row,
            )
        }
        Ok(Source::Stored { start, size }) => {
            let file = part(store, start, size);
            place_by(
                port,
                height,
                nominal_width(file),
                fonts::height(file),
                column,
                row,
            )
        }
        Err(refusal) => refused(port, refusal),
    }
}
