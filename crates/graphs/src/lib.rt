// Commands of bar graphs and strip charts.
#![tactic(auto)]

ghost use Rattle.std.specs.Prelude.{◌≡◌};
ghost use Rattle.rules.specs.Bars.{apart, set_up_bar, write_bar, set_up_strip, shift_strip};
ghost use Rattle.outcome.specs.Contract.{unlent, lent, untold, told, Obeys};
ghost use Rattle.graphs.specs.Graphs.{in_bounds_of};

use bar_graph::Bar;
use canvas::WIDTH;
use outcome::{Outcome, done, refused};
use panel::{bar_at, set_bar, set_strip, strip_at};
use refusals::Refusal;
use state::{BARS, Port, STRIPS};

// The types of bars are numbers below this: set_up_bar takes any byte, and refuses the others.
const TYPES: u8 = 4;

// The bit of a shift that moves right; the bits below it are the number.
const RIGHT: u8 = 128;

fn is_in_bounds(height: u8, x1: u8, y1: u8, x2: u8, y2: u8) -> bool
    ensures { result ≡ in_bounds_of height x1 y1 x2 y2 }
{
    u16::from(x1) < WIDTH && u16::from(x2) < WIDTH && y1 < height && y2 < height
}

// Corners in order, and no side of one pixel.
fn is_apart(x1: u8, y1: u8, x2: u8, y2: u8) -> bool
    ensures { result ≡ apart x1 y1 x2 y2 }
{
    x1 < x2 && y1 < y2
}

// The value is 0, and nothing is painted.
pub fn set_up_bar(
    panel: &mut [u8],
    port: Port,
    height: u8,
    number: u8,
    kind: u8,
    x1: u8,
    y1: u8,
    x2: u8,
    y2: u8,
) -> Outcome
    ensures { Obeys (told height) (λ w. set_up_bar w number kind x1 y1 x2 y2) port unlent unlent (lent panel.old panel.new) result }
{
    if usize::from(number) >= BARS {
        return refused(port, Refusal::NumberOutOfRange);
    }
    if kind >= TYPES {
        return refused(port, Refusal::UnknownType);
    }
    if !is_in_bounds(height, x1, y1, x2, y2) {
        return refused(port, Refusal::OutOfBounds);
    }
    if !is_apart(x1, y1, x2, y2) {
        return refused(port, Refusal::CornersOutOfOrder);
    }
    let bar = Bar {
        kind,
        x1,
        y1,
        x2,
        y2,
        value: 0,
    };
    set_bar(panel, number, bar);
    done(port)
}

pub fn write_bar(
    framebuffer: &mut [u8],
    panel: &mut [u8],
    port: Port,
    number: u8,
    value: u8,
) -> Outcome
    ensures { Obeys untold (λ w. write_bar w number value) port (lent framebuffer.old framebuffer.new) unlent (lent panel.old panel.new) result }
{
    if usize::from(number) >= BARS {
        return refused(port, Refusal::NumberOutOfRange);
    }
    let slot = bar_at(panel, number);
    if !slot.on {
        return refused(port, Refusal::NotSetUp);
    }
    let written = bar_graph::write_bar(framebuffer, slot.bar, value);
    set_bar(panel, number, written);
    done(port)
}

pub fn set_up_strip(
    panel: &mut [u8],
    port: Port,
    height: u8,
    number: u8,
    x1: u8,
    y1: u8,
    x2: u8,
    y2: u8,
) -> Outcome
    ensures { Obeys (told height) (λ w. set_up_strip w number x1 y1 x2 y2) port unlent unlent (lent panel.old panel.new) result }
{
    if usize::from(number) >= STRIPS {
        return refused(port, Refusal::NumberOutOfRange);
    }
    if !is_in_bounds(height, x1, y1, x2, y2) {
        return refused(port, Refusal::OutOfBounds);
    }
    if !is_apart(x1, y1, x2, y2) {
        return refused(port, Refusal::CornersOutOfOrder);
    }
    set_strip(panel, number, x1, y1, x2, y2);
    done(port)
}

// The low seven bits are the number, the highest one the way.
pub fn shift_strip(framebuffer: &mut [u8], panel: &[u8], port: Port, byte: u8) -> Outcome
    ensures { Obeys untold (λ w. shift_strip w byte) port (lent framebuffer.old framebuffer.new) unlent (lent panel.now panel.now) result }
{
    let number = byte % RIGHT;
    if usize::from(number) >= STRIPS {
        return refused(port, Refusal::NumberOutOfRange);
    }
    let strip = strip_at(panel, number);
    if !strip.on {
        return refused(port, Refusal::NotSetUp);
    }
    strip_chart::shift_strip(
        framebuffer,
        strip.x1,
        strip.y1,
        strip.x2,
        strip.y2,
        byte >= RIGHT,
    );
    done(port)
}
