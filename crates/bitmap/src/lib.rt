// Bitmaps: packed ones (glyphs, saved bitmaps) and data in line. What lies beyond the framebuffer is clipped.
// Up to eight columns of a row lie in two bytes, which are painted at once.
#![tactic(auto)]

ghost use Rattle.std.specs.Prelude.{◌≡◌, ◌+◌, ◌*◌, ◌<◌, ◌≤◌, min, length};
ghost use Rattle.pixels.specs.Framebuffer.{put, width};
ghost use Rattle.pixels.specs.Regions.{span, box};
ghost use Rattle.spans.specs.Bits.{bits_from};
ghost use Rattle.bitmap.specs.Pairs.{pair_of, swapped, column_mask, put_pair, BlendedPair, RowsReached, packed_from};
ghost use Rattle.bitmap.specs.Inline.{PlaceIs};
ghost use Rattle.bitmap.specs.Bitmaps.{packed, packed_box, inline_byte};

use canvas::{STRIDE, WIDTH, cell, rows_between};
use spans::{paint_cell, window};

// The pair whose bits in the n columns from `start` on are set.
fn pair_mask(start: u16, n: u16) -> u16
    requires { (start < 8) × (n < 9) }
    ensures { result ≡ swapped (column_mask start n) }
{
    (!(u16::MAX >> n) >> start).swap_bytes()
}

// A pair whose bits under the mask are those of another: by `^`, which needs no inverted mask at hand.
fn blended(old: u16, mask: u16, bits: u16) -> u16
    ensures { BlendedPair old mask bits result }
{
    ((old ^ bits) & mask) ^ old
}

// Where a mask has a 1, the pixels of byte number `at` and of the next one as sixteen columns.
fn paint_pair(framebuffer: &mut [u8], at: usize, mask: u16, columns: u16)
    requires { at + 1 < length framebuffer.old }
    ensures { framebuffer.new ≡ put_pair at mask (swapped columns) framebuffer.old }
{
    let old = u16::from_le_bytes([framebuffer[at], framebuffer[at + 1]]);
    let [first, second] = blended(old, mask, columns.swap_bytes()).to_le_bytes();
    framebuffer[at] = first;
    framebuffer[at + 1] = second;
}

// Columns x1 up to, and not with, x2 of row y, at most eight of them, from the highest bit of a byte on.
fn paint_byte(rows: &mut [u8], x1: u16, x2: u16, y: u16, byte: u8)
    requires { (x2 ≤ x1 + 8) × (x2 ≤ 256) }
    ensures { rows.new ≡ put (span x1 x2 y) (bits_from x1 byte) rows.old }
{
    let right = x2.min(WIDTH);
    if x1 < right {
        let at = cell(x1, y);
        if at + 1 < rows.len() {
            let start = x1 % 8;
            let mask = pair_mask(start, right - x1);
            let columns = u16::from_be_bytes([byte, 0]);
            paint_pair(rows, at, mask, columns >> start);
        } else {
            paint_cell(rows, x1, right, y, byte);
        }
    }
}

// Columns x1 up to, and not with, x2, at most eight of them, of the first n rows, which are those that are lent: of as many rows as have
// two bytes there and begin in two bytes of the bits. The answer is how many these are.
fn paint_pairs(
    rows: &mut [u8],
    x1: u16,
    x2: u16,
    n: usize,
    w: u8,
    first: usize,
    bits: &[u8],
) -> usize
    requires { (x1 < x2) × (x2 ≤ x1 + 8) × (x2 ≤ width) × (length rows.old ≤ 30 * n) × (n < 256) × (first < 256) }
    ensures { RowsReached x1 x2 n w first result bits.now rows.old rows.new }
{
    let start = x1 % 8;
    let mask = pair_mask(start, x2 - x1);
    let rows_last = rows.len().saturating_sub(1);
    let bits_last = bits.len().saturating_sub(1);
    let mut at = usize::from(x1 / 8);
    let mut k = first;
    // Rows and bits go on by strides of their own until either ends. A `for` over the rows tests both in its body and returns from there,
    // with 27 instructions a row for these 23.
    while at < rows_last && k / 8 < bits_last {
        let columns = u16::from_be_bytes([bits[k / 8], bits[k / 8 + 1]]) << (k % 8);
        paint_pair(rows, at, mask, columns >> start);
        at += STRIDE;
        k += usize::from(w);
    }
    at / STRIDE
}

// The same columns of rows y1 up to, and not with, n, each looked at by itself.
fn paint_rows(
    rows: &mut [u8],
    x1: u16,
    x2: u16,
    y1: usize,
    n: usize,
    w: u8,
    first: usize,
    bits: &[u8],
)
    requires { (x2 ≤ x1 + 8) × (x2 ≤ width) × (y1 ≤ n) × (n < 256) × (first < 1000000) }
    ensures { rows.new ≡ put (box x1 x2 y1 n) (packed_from first x1 y1 w bits.now) rows.old }
{
    let mut k = first;
    for y in y1..n {
        paint_byte(rows, x1, x2, y as u16, window(bits, k));
        k += usize::from(w);
    }
}

// All of the n rows: by pairs as far as that goes.
fn paint_strip(rows: &mut [u8], x1: u16, x2: u16, n: usize, w: u8, first: usize, bits: &[u8])
    requires { (x1 < x2) × (x2 ≤ x1 + 8) × (x2 ≤ width) × (length rows.old ≤ 30 * n) × (n < 256) × (first < 256) }
    ensures { rows.new ≡ put (box x1 x2 0 n) (packed_from first x1 0 w bits.now) rows.old }
{
    let y = paint_pairs(rows, x1, x2, n, w, first, bits);
    paint_rows(rows, x1, x2, y, n, w, first + y * usize::from(w), bits);
}

// Columns x up to, and not with, `right` of the first n rows, which are those that are lent, by strips of eight columns.
fn paint_strips(rows: &mut [u8], x: u16, right: u16, n: usize, w: u8, bits: &[u8])
    requires { (right ≤ width) × (length rows.old ≤ 30 * n) × (n < 256) }
    ensures { rows.new ≡ put (box x right 0 n) (packed x 0 w bits.now) rows.old }
{
    for left in (x..right).step_by(8) {
        let end = (left + 8).min(right);
        paint_strip(rows, left, end, n, w, usize::from(left - x), bits);
    }
}

// A glyph or a saved bitmap of w by h bits, its upper left corner at (x, y): only its rows are lent on.
pub fn paint_packed(framebuffer: &mut [u8], x: u16, y: u8, w: u8, h: u8, bits: &[u8])
    ensures { framebuffer.new ≡ packed_box x y w h bits.now framebuffer.old }
{
    if x < WIDTH {
        let right = (x + u16::from(w)).min(WIDTH);
        let top = u16::from(y);
        let rows = rows_between(framebuffer.len(), top, top + u16::from(h));
        let n = usize::from(rows.count);
        paint_strips(&mut framebuffer[rows.from..rows.to], x, right, n, w, bits);
    }
}

#[derive(Clone, Copy)]
struct Place {
    x: u16,
    y: u32,
}

// Where the first pixel of byte number k lies.
fn inline_place(x1: u8, y1: u8, x2: u8, k: u16) -> Place
    requires { x1 ≤ x2 }
    ensures { PlaceIs x1 y1 x2 k result }
{
    let n = u16::from(x2 - x1) / 8 + 1;
    let across = k % n;
    let down = k / n;
    Place {
        x: u16::from(x1) + 8 * across,
        y: u32::from(y1) + u32::from(down),
    }
}

// Byte number k of data in line for the rectangle of two corners: only its row is lent on.
pub fn paint_inline(framebuffer: &mut [u8], x1: u8, y1: u8, x2: u8, y2: u8, k: u16, byte: u8)
    ensures { framebuffer.new ≡ inline_byte x1 y1 x2 y2 k byte framebuffer.old }
{
    if x1 <= x2 {
        let Place { x, y } = inline_place(x1, y1, x2, k);
        if y <= u32::from(y2) {
            let end = (x + 8).min(u16::from(x2) + 1);
            let len = framebuffer.len();
            let top = STRIDE * (y as usize);
            let from = top.min(len);
            let to = (top + STRIDE).min(len);
            paint_byte(&mut framebuffer[from..to], x, end, 0, byte);
        }
    }
}
