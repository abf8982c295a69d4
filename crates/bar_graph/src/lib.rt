// Bars of a bar graph: a write paints between the old value and the new one, and is lent only the rows of its bar.
#![tactic(auto)]

ghost use Rattle.std.specs.Prelude.{◌≡◌};
ghost use Rattle.pixels.specs.Framebuffer.{fill};
ghost use Rattle.bar_graph.specs.Bars.{vertical, from_far, length_of, held_to, stripe, write_of, written_bar};
ghost use Rattle.bar_graph.specs.Axis.{interval_of};
ghost use Rattle.bar_graph.specs.Raised.{raised_of};

use canvas::{Colour, rows_between};
use rectangle::{fill_box, fill_rectangle};
use std::ops::Range;

// The kinds of bars, by the side that they grow from. Numbers and no enum: a bar that is read from a record may have any byte there, and
// `write_bar` says what is painted for each.
pub const FROM_BOTTOM: u8 = 0;

pub const FROM_LEFT: u8 = 1;

pub const FROM_TOP: u8 = 2;

pub const FROM_RIGHT: u8 = 3;

// Both corners lie in the bar. Any bar may be written, whatever its numbers are.
#[derive(Clone, Copy)]
pub struct Bar {
    pub kind: u8,
    pub x1: u8,
    pub y1: u8,
    pub x2: u8,
    pub y2: u8,
    pub value: u8,
}

// Whether it grows by rows.
fn is_vertical(kind: u8) -> bool
    ensures { result ≡ vertical kind }
{
    matches!(kind, FROM_BOTTOM | FROM_TOP)
}

// Whether it grows from where rows or columns end.
fn is_from_far(kind: u8) -> bool
    ensures { result ≡ from_far kind }
{
    !matches!(kind, FROM_LEFT | FROM_TOP)
}

// Rows or columns in all.
pub fn length_of(bar: Bar) -> u16
    ensures { result ≡ length_of bar }
{
    if is_vertical(bar.kind) {
        return (u16::from(bar.y2) + 1).saturating_sub(u16::from(bar.y1));
    }
    (u16::from(bar.x2) + 1).saturating_sub(u16::from(bar.x1))
}

// A value, held to the length.
pub fn held(bar: Bar, value: u8) -> u8
    ensures { result ≡ held_to bar value }
{
    length_of(bar).min(u16::from(value)) as u8
}

// On one axis from lo to hi: what lies from depth a up to depth e.
fn interval_of(far: bool, lo: u8, hi: u8, a: u8, e: u8) -> Range<u16>
    ensures { result ≡ interval_of far lo hi a e }
{
    let lo = u16::from(lo);
    let end = u16::from(hi) + 1;
    if far {
        return lo.max(end.saturating_sub(u16::from(e)))..end.saturating_sub(u16::from(a));
    }
    lo + u16::from(a)..end.min(lo + u16::from(e))
}

// The bar as its own rows show it: its first row is row 0.
fn raised(bar: Bar) -> Bar
    ensures { result ≡ raised_of bar }
{
    Bar {
        y1: 0,
        y2: bar.y2.saturating_sub(bar.y1),
        ..bar
    }
}

// The rows or columns of a bar from depth a up to depth e, in the colour c.
fn fill_stripe(rows: &mut [u8], bar: Bar, a: u8, e: u8, c: Colour)
    ensures { rows.new ≡ fill (stripe bar a e) c.black rows.old }
{
    let far = is_from_far(bar.kind);
    if is_vertical(bar.kind) {
        let along = interval_of(far, bar.y1, bar.y2, a, e);
        fill_box(
            rows,
            u16::from(bar.x1),
            u16::from(bar.x2) + 1,
            along.start,
            along.end,
            c,
        );
        return;
    }
    let along = interval_of(far, bar.x1, bar.x2, a, e);
    fill_box(
        rows,
        along.start,
        along.end,
        u16::from(bar.y1),
        u16::from(bar.y2) + 1,
        c,
    );
}

// 0 whitens all; another value paints only what differs from the old one.
fn paint_write(rows: &mut [u8], bar: Bar, value: u8)
    ensures { rows.new ≡ write_of bar value rows.old }
{
    let old = bar.value;
    let new = held(bar, value);
    if value == 0 {
        fill_rectangle(rows, bar.x1, bar.y1, bar.x2, bar.y2, Colour::WHITE);
        return;
    }
    if old < new {
        fill_stripe(rows, bar, old, new, Colour::BLACK);
        return;
    }
    fill_stripe(rows, bar, new, old, Colour::WHITE);
}

// The rows of the bar alone are lent on. The answer keeps the value as held.
pub fn write_bar(framebuffer: &mut [u8], bar: Bar, value: u8) -> Bar
    ensures { (result ≡ written_bar bar value) × (framebuffer.new ≡ write_of bar value framebuffer.old) }
{
    let written = Bar {
        value: held(bar, value),
        ..bar
    };
    if bar.y2 < bar.y1 {
        return written;
    }
    let rows = rows_between(framebuffer.len(), u16::from(bar.y1), u16::from(bar.y2) + 1);
    paint_write(&mut framebuffer[rows.from..rows.to], raised(bar), value);
    written
}
