// The whole framebuffer: cleared, and scrolled up.
#![tactic(auto)]

ghost use Rattle.std.specs.Prelude.{◌≡◌, false, ◌+◌, ◌≤◌, length};
ghost use Rattle.pixels.specs.Framebuffer.{fill};
ghost use Rattle.pixels.specs.Regions.{everywhere};
ghost use Rattle.scroll.specs.Scroll.{scrolled, Moved};

use canvas::STRIDE;

// Everything white.
#[tactic(auto, using(crate::proofs::Bytes::cleared_zeros))]
pub fn clear(framebuffer: &mut [u8])
    ensures { framebuffer.new ≡ fill everywhere false framebuffer.old }
{
    framebuffer.fill(0);
}

// The n bytes from number `by` on, moved to the front. No `copy_within`, which goes by options of references: one that is handed on
// lies elsewhere on a processor of 32 bits, so the archives that are made of the module of x86-64 would read a wrong place.
fn move_up(framebuffer: &mut [u8], by: usize, n: usize)
    requires { n + by ≤ length framebuffer.old }
    ensures { Moved by n framebuffer.old framebuffer.new }
{
    for i in 0..n {
        framebuffer[i] = framebuffer[i + by];
    }
}

// Up by so many rows, white below; all white where there are not so many.
#[tactic(auto, using(crate::proofs::Bytes::scrolled_on, crate::proofs::Bytes::scrolled_off))]
pub fn scroll_up(framebuffer: &mut [u8], rows: u16)
    ensures { framebuffer.new ≡ scrolled rows framebuffer.old }
{
    let by = STRIDE * usize::from(rows);
    let end = framebuffer.len();
    if by < end {
        let kept = end - by;
        move_up(framebuffer, by, kept);
        clear(&mut framebuffer[kept..end]);
    } else {
        clear(framebuffer);
    }
}
