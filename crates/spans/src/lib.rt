// Columns of a row painted a byte at a time, from bits that lie anywhere in a list of bytes.
#![tactic(auto)]

ghost use Rattle.std.specs.Prelude.{◌≡◌, ◌+◌, ◌*◌, ◌/◌, ◌<◌, ◌≤◌, get_or};
ghost use Rattle.pixels.specs.Framebuffer.{put, width};
ghost use Rattle.pixels.specs.Regions.{span};
ghost use Rattle.canvas.specs.Canvas.{masked};
ghost use Rattle.spans.specs.Bits.{window_of, blended_of, cell_bits, bits_from, cell_end};

use canvas::{WIDTH, cell};
use lent_bytes::byte_at;

// Eight bits from number k on.
pub fn window(bits: &[u8], k: usize) -> u8
    ensures { result ≡ window_of bits.now k }
{
    let at = k / 8;
    let both = u16::from_be_bytes([byte_at(bits, at), byte_at(bits, at + 1)]);
    ((both >> (8 - k % 8)) % 256) as u8
}

// A byte whose bits under the mask are those of another.
#[tactic(auto, using(crate::proofs::Cells::blended_is))]
fn blended(old: u8, mask: u8, byte: u8) -> u8
    ensures { result ≡ blended_of old mask byte }
{
    (old & !mask) | (byte & mask)
}

// Where a mask has a 1, the pixels of byte number `at` as those of `byte`; beyond the framebuffer nothing.
#[tactic(auto, using(crate::proofs::Cells::blend_on, crate::proofs::Cells::blend_off))]
fn blend(framebuffer: &mut [u8], at: usize, mask: u8, byte: u8)
    ensures { framebuffer.new ≡ put (masked at mask) (cell_bits byte) framebuffer.old }
{
    // By number: what stands in the slice after a write through `get_mut` doesn't prove, since its contract leaves that open.
    if at < framebuffer.len() {
        framebuffer[at] = blended(framebuffer[at], mask, byte);
    }
}

// The column behind the byte of column x, or x2 if that comes first.
#[tactic(auto, unfolding(crate::specs::Bits::cell_end))]
fn cell_end(x: u16, x2: u16) -> u16
    ensures { result ≡ cell_end x x2 }
{
    x2.min((x - x % 8).saturating_add(8))
}

// Columns x up to, and not with, `end` of row y, all of one byte, from the highest of eight bits on.
fn paint_part(framebuffer: &mut [u8], x: u16, end: u16, y: u16, bits: u8)
    requires { (x < end) × (end ≤ 8 * (x / 8) + 8) × (x < width) }
    ensures { framebuffer.new ≡ put (span x end y) (bits_from x bits) framebuffer.old }
{
    let start = x % 8;
    let stop = end - (x - start);
    let right = (255u16 >> stop) as u8;
    let mask = (255u8 >> start) & !right;
    blend(framebuffer, cell(x, y), mask, bits >> start);
}

// Columns x up to, and not with, x2 of row y, as far as they are in the byte of column x, from the highest of eight bits on.
#[tactic(auto, using(crate::proofs::Cells::end_in_byte, crate::proofs::Cells::part_painted, crate::proofs::Cells::cell_none, crate::proofs::Cells::cell_off))]
pub fn paint_cell(framebuffer: &mut [u8], x: u16, x2: u16, y: u16, bits: u8)
    ensures { framebuffer.new ≡ put (span x (cell_end x x2) y) (bits_from x bits) framebuffer.old }
{
    let end = cell_end(x, x2);
    if x < end && x < WIDTH {
        paint_part(framebuffer, x, end, y, bits);
    }
}
