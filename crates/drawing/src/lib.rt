// Drawing commands: clear, colour, pixel, line, frame, solid rectangle.
// What sets a part of the port is never in line, as `refused` (outcome) is not.
#![tactic(auto)]

ghost use Rattle.std.specs.Prelude.{◌≡◌};
ghost use Rattle.rules.specs.Drawing.{clear, set_colour, draw_pixel, draw_line, ordered, draw_frame, fill_rectangle};
ghost use Rattle.outcome.specs.Contract.{unlent, lent, untold, Obeys};

use canvas::{Colour, plot};
use outcome::{Outcome, done, put_text, refused};
use refusals::Refusal;
use state::{Drawing, Port, Text};

// The whole framebuffer white, and the text point home.
#[inline(never)]
pub fn clear(framebuffer: &mut [u8], port: Port) -> Outcome
    ensures { Obeys untold clear port (lent framebuffer.old framebuffer.new) unlent unlent result }
{
    scroll::clear(framebuffer);
    let text = Text {
        x: u16::from(port.text.left),
        y: port.text.top,
        ..port.text
    };
    done(put_text(port, text))
}

#[inline(never)]
pub fn set_colour(port: Port, colour: u8) -> Outcome
    ensures { Obeys untold (λ w. set_colour w colour) port unlent unlent unlent result }
{
    let drawing = Drawing {
        colour: Colour::from(colour),
        ..port.drawing
    };
    done(Port { drawing, ..port })
}

pub fn draw_pixel(framebuffer: &mut [u8], port: Port, x: u8, y: u8) -> Outcome
    ensures { Obeys untold (λ w. draw_pixel w x y) port (lent framebuffer.old framebuffer.new) unlent unlent result }
{
    let colour = port.drawing.colour;
    plot(framebuffer, u16::from(x), u16::from(y), colour);
    done(port)
}

// The end is kept as it came, beyond the framebuffer too.
#[inline(never)]
pub fn draw_line(framebuffer: &mut [u8], port: Port, x1: u8, y1: u8, x2: u8, y2: u8) -> Outcome
    ensures { Obeys untold (λ w. draw_line w x1 y1 x2 y2) port (lent framebuffer.old framebuffer.new) unlent unlent result }
{
    line::draw_line(framebuffer, x1, y1, x2, y2, port.drawing.colour);
    let drawing = Drawing {
        x: x2,
        y: y2,
        ..port.drawing
    };
    done(Port { drawing, ..port })
}

// Corners in order.
pub fn is_ordered(x1: u8, y1: u8, x2: u8, y2: u8) -> bool
    ensures { result ≡ ordered x1 y1 x2 y2 }
{
    x1 <= x2 && y1 <= y2
}

pub fn draw_frame(
    framebuffer: &mut [u8],
    port: Port,
    colour: u8,
    x1: u8,
    y1: u8,
    x2: u8,
    y2: u8,
) -> Outcome
    ensures { Obeys untold (λ w. draw_frame w colour x1 y1 x2 y2) port (lent framebuffer.old framebuffer.new) unlent unlent result }
{
    if !is_ordered(x1, y1, x2, y2) {
        return refused(port, Refusal::CornersOutOfOrder);
    }
    rectangle::draw_frame(framebuffer, x1, y1, x2, y2, Colour::from(colour));
    done(port)
}

pub fn fill_rectangle(
    framebuffer: &mut [u8],
    port: Port,
    colour: u8,
    x1: u8,
    y1: u8,
    x2: u8,
    y2: u8,
) -> Outcome
    ensures { Obeys untold (λ w. fill_rectangle w colour x1 y1 x2 y2) port (lent framebuffer.old framebuffer.new) unlent unlent result }
{
    if !is_ordered(x1, y1, x2, y2) {
        return refused(port, Refusal::CornersOutOfOrder);
    }
    rectangle::fill_rectangle(framebuffer, x1, y1, x2, y2, Colour::from(colour));
    done(port)
}
