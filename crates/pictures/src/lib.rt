// Commands of saved bitmaps and of data in line.
// What sets a part of the port is never in line, as `refused` (outcome) is not.
#![tactic(auto)]

ghost use Rattle.std.specs.Prelude.{◌≡◌, ℕ, [], true, IfOk, IfErr};
ghost use Rattle.refusals.specs.Refusals.{number_of};
ghost use Rattle.fonts.specs.Bitmaps.{is_bitmap};
ghost use Rattle.rules.specs.World.{World, refused};
ghost use Rattle.rules.specs.Pictures.{bitmap_in, show_bitmap, begin_inline, inline_data};
ghost use Rattle.outcome.specs.Contract.{unlent, lent, untold, Obeys};

use bitmap::{paint_inline, paint_packed};
use directory::{BITMAP, MAX_NUMBER, find, part, rest};
use drawing::is_ordered;
use fonts::{BITMAP_HEADER, bitmap_height, bitmap_width, check_bitmap};
use outcome::{Outcome, done, in_phase, refused};
use refusals::Refusal;
use state::{Phase, Port, inline_bytes};

// The file of a bitmap, checked whole.
fn bitmap_file(store: &[u8], number: u16) -> Result<&[u8], Refusal>
    ensures found { IfOk result (λ file. (is_bitmap file.now ≡ true) × ((w : World) (x : ℕ) (y : ℕ) → w.store ≡ store.now → show_bitmap w number x y ≡ bitmap_in w file.now x y)) }
    ensures refused { IfErr result (λ refusal. (w : World) (x : ℕ) (y : ℕ) → w.store ≡ store.now → show_bitmap w number x y ≡ refused (number_of refusal) []) }
{
    if number > MAX_NUMBER {
        return Err(Refusal::NumberOutOfRange);
    }
    let Some(found) = find(store, BITMAP, number) else {
        return Err(Refusal::NoSuchFile);
    };
    let file = part(store, found.start, found.size);
    check_bitmap(file)?;
    Ok(file)
}

// A saved bitmap, its upper left corner at (x, y).
pub fn show_bitmap(
    framebuffer: &mut [u8],
    store: &[u8],
    port: Port,
    number: u16,
    x: u8,
    y: u8,
) -> Outcome
    ensures { Obeys untold (λ w. show_bitmap w number x y) port (lent framebuffer.old framebuffer.new) (lent store.now store.now) unlent result }
{
    let file = match bitmap_file(store, number) {
        Ok(file) => file,
        Err(refusal) => return refused(port, refusal),
    };
    let bits = rest(file, BITMAP_HEADER);
    paint_packed(
        framebuffer,
        u16::from(x),
        y,
        bitmap_width(file),
        bitmap_height(file),
        bits,
    );
    done(port)
}

#[inline(never)]
pub fn begin_inline(port: Port, x1: u8, y1: u8, x2: u8, y2: u8) -> Outcome
    ensures { Obeys untold (λ w. begin_inline w x1 y1 x2 y2) port unlent unlent unlent result }
{
    if !is_ordered(x1, y1, x2, y2) {
        return refused(port, Refusal::CornersOutOfOrder);
    }
    done(in_phase(
        port,
        Phase::Inline {
            x1,
            y1,
            x2,
            y2,
            done: 0,
        },
    ))
}

// Byte number `came` of the data, painted as it comes; one behind the last ends the data too.
pub fn inline_data(
    framebuffer: &mut [u8],
    port: Port,
    x1: u8,
    y1: u8,
    x2: u8,
    y2: u8,
    came: u16,
    byte: u8,
) -> Outcome
    ensures { Obeys untold (λ w. inline_data w x1 y1 x2 y2 came byte) port (lent framebuffer.old framebuffer.new) unlent unlent result }
{
    paint_inline(framebuffer, x1, y1, x2, y2, came, byte);
    let all = inline_bytes(x1, y1, x2, y2);
    if u32::from(came) + 1 < u32::from(all) {
        return done(in_phase(
            port,
            Phase::Inline {
                x1,
                y1,
                x2,
                y2,
                done: came + 1,
            },
        ));
    }
    done(in_phase(port, Phase::Idle))
}
