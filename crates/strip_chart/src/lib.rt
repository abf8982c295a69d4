// Strip charts: the pixels of a rectangle moved by one column, a byte of a row at a time. It is clipped; with its corners out of order it
// is empty.
#![tactic(auto)]

ghost use Rattle.std.specs.Prelude.{◌≡◌, true, ◌≤◌, ◌<◌};
ghost use Rattle.pixels.specs.Framebuffer.{width};
ghost use Rattle.strip_chart.specs.Strips.{entering, source, shifted_strip};
ghost use Rattle.strip_chart.specs.Walk.{part_of, beyond, shifted_row, shifted_rows};

use canvas::{Colour, WIDTH, plot, rows_between};
use spans::{paint_cell, window};
use std::ops::Range;

// The column that comes in.
fn entering(right: bool, x1: u16, x2: u16) -> u16
    ensures { result ≡ entering right x1 x2 }
{
    if right { x1 } else { x2 }
}

// The column whose pixels come to column x, which is not the one that comes in.
fn source(right: bool, x: u16) -> u16
    requires { (x < 65535) × (right ≡ true → 0 < x) }
    ensures { result ≡ source right x }
{
    if right { x - 1 } else { x + 1 }
}

// The columns in the byte of column x from it on towards column `end`, and not with that one.
fn part_of(right: bool, x: u16, end: u16) -> Range<u16>
    requires { (x < width) × (end < width) }
    ensures { result ≡ part_of right x end }
{
    let start = 8 * (x / 8);
    if right {
        start.max(end + 1)..x + 1
    } else {
        x..(start + 8).min(end)
    }
}

// The column behind a part, on the way.
fn beyond(right: bool, part: Range<u16>) -> u16
    requires { right ≡ true → 0 < part.start }
    ensures { result ≡ beyond right part }
{
    if right { part.start - 1 } else { part.end }
}

// Columns x1 to x2 of row y moved by one.
fn shift_row(rows: &mut [u8], x1: u16, x2: u16, y: u16, right: bool)
    requires { (x1 ≤ x2) × (x2 < width) }
    ensures { rows.new ≡ shifted_row right x1 x2 y rows.old }
{
    // The number of the row's first pixel, as a bit of the framebuffer.
    let row = usize::from(WIDTH) * usize::from(y);
    let end = entering(right, x1, x2);
    // The column that goes out is the one that would come in on the way back.
    let mut x = entering(!right, x1, x2);
    // No `for`: the parts go either way, and the first and the last may be narrower than a byte.
    while x != end {
        let part = part_of(right, x, end);
        let bits = window(rows, row + usize::from(source(right, part.start)));
        paint_cell(rows, part.start, part.end, y, bits);
        x = beyond(right, part);
    }
    plot(rows, end, y, Colour::WHITE);
}

// Columns x1 to x2 of the first n rows that are lent, moved by one.
fn shift_rows(rows: &mut [u8], x1: u16, x2: u16, n: u16, right: bool)
    requires { (x1 ≤ x2) × (x2 < width) }
    ensures { rows.new ≡ shifted_rows right x1 x2 n rows.old }
{
    for y in 0..n {
        shift_row(rows, x1, x2, y, right);
    }
}

// The rectangle of two corners moved one pixel right, or left: only its rows are lent on.
pub fn shift_strip(framebuffer: &mut [u8], x1: u8, y1: u8, x2: u8, y2: u8, right: bool)
    ensures { framebuffer.new ≡ shifted_strip right x1 y1 x2 y2 framebuffer.old }
{
    let left = u16::from(x1);
    let last = u16::from(x2).min(WIDTH - 1);
    if left <= last {
        let rows = rows_between(framebuffer.len(), u16::from(y1), u16::from(y2) + 1);
        shift_rows(
            &mut framebuffer[rows.from..rows.to],
            left,
            last,
            rows.count,
            right,
        );
    }
}
