// Rectangles, solid and framed, painted by the byte: whole bytes between the left and right ends, and at either end the pixels under a
// mask. A rectangle beyond the framebuffer is clipped, one with its corners out of order is empty.
#![tactic(auto)]

ghost use Rattle.std.specs.Prelude.{◌≡◌, ◌+◌, ◌*◌, ◌/◌, ◌<◌, ◌≤◌, length};
ghost use Rattle.pixels.specs.Framebuffer.{fill, width, stride};
ghost use Rattle.pixels.specs.Regions.{box, columns, rectangle};
ghost use Rattle.canvas.specs.Canvas.{masked};
ghost use Rattle.rectangle.specs.Frame.{frame};
ghost use Rattle.rectangle.specs.Ends.{solid_byte, ends_of, whole_bytes, byte_columns, ends_columns, in_row, in_rows, in_all, Apart, Covered};

use canvas::{Colour, Rows, STRIDE, WIDTH, painted, rows_between, stamp};

// Columns of a row by its bytes: the first and the last byte that have any of them, and the mask of those that each has.
#[derive(Clone, Copy)]
struct Ends {
    first: usize,
    last: usize,
    left: u8,
    right: u8,
}

#[tactic(auto, unfolding(crate::specs::Ends::ends_of))]
fn ends_of(x1: u16, x2: u16) -> Ends
    requires { x1 < x2 }
    ensures { result ≡ ends_of x1 x2 }
{
    let end = x2 - 1;
    Ends {
        first: usize::from(x1 / 8),
        last: usize::from(end / 8),
        left: 255u8 >> (x1 % 8),
        right: !(127u8 >> (end % 8)),
    }
}

// A byte of eight pixels in one colour.
#[tactic(auto, unfolding(crate::specs::Ends::solid_byte))]
fn solid_byte(c: Colour) -> u8
    ensures { result ≡ solid_byte c.black }
{
    if c.black { 255 } else { 0 }
}

// Where a mask has a 1, the pixels of byte number `at`, which is there.
#[tactic(auto, using(canvas::proofs::Strokes::stamp_on))]
fn stamp_inside(rows: &mut [u8], at: usize, mask: u8, c: Colour)
    requires { at < length rows.old }
    ensures { rows.new ≡ fill (masked at mask) c.black rows.old }
{
    rows[at] = painted(rows[at], mask, c);
}

// The bytes from one number up to, and not with, another.
fn fill_bytes(rows: &mut [u8], from: usize, to: usize, c: Colour)
    requires { (from ≤ to) × (to ≤ length rows.old) }
    ensures { rows.new ≡ fill (whole_bytes from to) c.black rows.old }
{
    rows[from..to].fill(solid_byte(c));
}

// Row y. The bytes between its ends are two runs of one length, which may overlap.
fn fill_row<const RUN: usize>(rows: &mut [u8], y: usize, ends: Ends, c: Colour)
    requires { (stride * y + stride ≤ length rows.old) × Covered ends RUN }
    ensures { rows.new ≡ fill (in_row (ends_columns ends) y) c.black rows.old }
{
    let first = STRIDE * y + ends.first;
    let last = STRIDE * y + ends.last;
    stamp_inside(rows, first, ends.left, c);
    fill_bytes(rows, first + 1, first + 1 + RUN, c);
    fill_bytes(rows, last - RUN, last, c);
    stamp_inside(rows, last, ends.right, c);
}

// All rows that are not broken off.
fn fill_rows<const RUN: usize>(rows: &mut [u8], ends: Ends, c: Colour)
    requires { Covered ends RUN }
    ensures { rows.new ≡ fill (in_rows (ends_columns ends) (length rows.old / stride)) c.black rows.old }
{
    for y in 0..rows.len() / STRIDE {
        fill_row::<RUN>(rows, y, ends, c);
    }
}

// The same with the longest runs. Each length is a constant: where the compiler knows it, it can make stores of a run, and need not call
// memset in every row.
fn fill_whole_rows(rows: &mut [u8], ends: Ends, c: Colour)
    requires { Apart ends }
    ensures { rows.new ≡ fill (in_rows (ends_columns ends) (length rows.old / stride)) c.black rows.old }
{
    match ends.last - ends.first - 1 {
        0 => fill_rows::<0>(rows, ends, c),
        1 => fill_rows::<1>(rows, ends, c),
        2..=3 => fill_rows::<2>(rows, ends, c),
        4..=7 => fill_rows::<4>(rows, ends, c),
        8..=15 => fill_rows::<8>(rows, ends, c),
        _ => fill_rows::<16>(rows, ends, c),
    }
}

// Row y, which the framebuffer breaks off, as far as it goes.
#[tactic(auto, using(crate::proofs::Runs::run_cut, crate::proofs::Rows::row_painted))]
fn fill_broken_row(rows: &mut [u8], y: usize, ends: Ends, c: Colour)
    requires { (stride * y ≤ length rows.old) × Apart ends }
    ensures { rows.new ≡ fill (in_row (ends_columns ends) y) c.black rows.old }
{
    let first = STRIDE * y + ends.first;
    let last = STRIDE * y + ends.last;
    let from = rows.len().min(first + 1);
    let to = rows.len().min(last);
    stamp(rows, first, ends.left, c);
    fill_bytes(rows, from, to, c);
    stamp(rows, last, ends.right, c);
}

// One byte of each row, under a mask.
fn fill_byte_column(rows: &mut [u8], first: usize, mask: u8, c: Colour)
    requires { first < stride }
    ensures { rows.new ≡ fill (in_all (byte_columns first mask)) c.black rows.old }
{
    for y in 0..rows.len().saturating_sub(first).div_ceil(STRIDE) {
        stamp_inside(rows, STRIDE * y + first, mask, c);
    }
}

// Columns x1 up to, and not with, x2 of all rows that are lent.
#[tactic(auto, using(crate::proofs::Columns::first_inside, crate::proofs::Columns::ends_apart, crate::proofs::Columns::columns_none, crate::proofs::Columns::columns_byte, crate::proofs::Columns::columns_whole, crate::proofs::Columns::columns_broken))]
fn fill_columns(rows: &mut [u8], x1: u16, x2: u16, c: Colour)
    requires { x2 ≤ width }
    ensures { rows.new ≡ fill (columns x1 x2) c.black rows.old }
{
    if x2 <= x1 {
        return;
    }
    let ends = ends_of(x1, x2);
    if ends.first == ends.last {
        fill_byte_column(rows, ends.first, ends.left & ends.right, c);
        return;
    }
    fill_whole_rows(rows, ends, c);
    let whole = rows.len() / STRIDE;
    if STRIDE * whole < rows.len() {
        fill_broken_row(rows, whole, ends, c);
    }
}

// Columns x1 up to, and not with, x2 of rows y1 up to, and not with, y2: only those rows are lent on.
pub fn fill_box(framebuffer: &mut [u8], x1: u16, x2: u16, y1: u16, y2: u16, c: Colour)
    ensures { framebuffer.new ≡ fill (box x1 x2 y1 y2) c.black framebuffer.old }
{
    let Rows { from, to, .. } = rows_between(framebuffer.len(), y1, y2);
    let right = x2.min(WIDTH);
    fill_columns(&mut framebuffer[from..to], x1, right, c);
}

// The solid rectangle of two corners, both in it.
pub fn fill_rectangle(framebuffer: &mut [u8], x1: u8, y1: u8, x2: u8, y2: u8, c: Colour)
    ensures { framebuffer.new ≡ fill (rectangle x1 y1 x2 y2) c.black framebuffer.old }
{
    fill_box(
        framebuffer,
        u16::from(x1),
        u16::from(x2) + 1,
        u16::from(y1),
        u16::from(y2) + 1,
        c,
    );
}

// The edges of the rectangle of two corners.
#[tactic(auto, using(crate::proofs::Edges::frame_drawn, crate::proofs::Edges::no_rows, crate::proofs::Edges::no_columns))]
pub fn draw_frame(framebuffer: &mut [u8], x1: u8, y1: u8, x2: u8, y2: u8, c: Colour)
    ensures { framebuffer.new ≡ fill (frame x1 y1 x2 y2) c.black framebuffer.old }
{
    if x1 <= x2 && y1 <= y2 {
        fill_rectangle(framebuffer, x1, y1, x2, y1, c);
        fill_rectangle(framebuffer, x1, y2, x2, y2, c);
        fill_rectangle(framebuffer, x1, y1, x1, y2, c);
        fill_rectangle(framebuffer, x2, y1, x2, y2, c);
    }
}
