// Colours, the sizes of the framebuffer, and the painting and reading of single pixels.
#![tactic(auto)]

ghost use Rattle.std.specs.Prelude.{◌≡◌, min};
ghost use Rattle.pixels.specs.Framebuffer.{cell, fill, black, row_start};
ghost use Rattle.pixels.specs.Regions.{point};
ghost use Rattle.canvas.specs.Sizes.{is_height, length_for};
ghost use Rattle.canvas.specs.Colour.{colour_of};
ghost use Rattle.canvas.specs.Canvas.{painted_of, masked, RowsAre};

// The sizes of the framebuffer: columns, and bytes in a row.
pub const WIDTH: u16 = 240;

pub const STRIDE: usize = 30;

// The two heights that there are, in rows, with their bytes: cast by `as`, for a constant's value can call no `usize::from`.
pub const LOW_HEIGHT: u8 = 64;

pub const LOW_LENGTH: usize = STRIDE * (LOW_HEIGHT as usize);

pub const TALL_HEIGHT: u8 = 128;

pub const TALL_LENGTH: usize = STRIDE * (TALL_HEIGHT as usize);

#[tactic(auto, unfolding(crate::specs::Sizes::is_height))]
pub fn is_height(height: u32) -> bool
    ensures { result ≡ is_height height }
{
    height == u32::from(LOW_HEIGHT) || height == u32::from(TALL_HEIGHT)
}

// The bytes of so many rows.
pub fn length_for(height: u8) -> usize
    ensures { result ≡ length_for height }
{
    STRIDE * usize::from(height)
}

// A struct of a flag and no enum: the contracts of `stamp`, `plot` and the painters above read its field `black`.
#[derive(Clone, Copy)]
pub struct Colour {
    pub black: bool,
}

impl Colour {
    pub const BLACK: Colour = Colour { black: true };

    pub const WHITE: Colour = Colour { black: false };
}

// 0 is white, any other byte black.
impl From<u8> for Colour {
    ghost from_gives = { λ byte c. c ≡ colour_of byte };

    fn from(byte: u8) -> Colour {
        Colour { black: byte != 0 }
    }
}

// A byte whose bits under the mask are in the colour c; the others stay.
#[tactic(auto, using(crate::proofs::Strokes::paint_black, crate::proofs::Strokes::paint_white))]
pub fn painted(byte: u8, mask: u8, c: Colour) -> u8
    ensures { result ≡ painted_of byte mask c.black }
{
    if c.black { byte | mask } else { byte & !mask }
}

// The number of the byte that holds column x of row y.
pub fn cell(x: u16, y: u16) -> usize
    ensures { result ≡ cell x y }
{
    STRIDE * usize::from(y) + usize::from(x / 8)
}

// Where a mask has a 1, the pixels of byte number `at`; beyond the framebuffer nothing.
#[tactic(auto, using(crate::proofs::Strokes::stamp_on, crate::proofs::Strokes::stamp_off))]
pub fn stamp(framebuffer: &mut [u8], at: usize, mask: u8, c: Colour)
    ensures { framebuffer.new ≡ fill (masked at mask) c.black framebuffer.old }
{
    // By number: what stands in the slice after a write through `get_mut` doesn't prove, since its contract leaves that open.
    if at < framebuffer.len() {
        framebuffer[at] = painted(framebuffer[at], mask, c);
    }
}

// One pixel; beyond the framebuffer nothing.
#[tactic(auto, using(crate::proofs::Strokes::plot_on, crate::proofs::Strokes::plot_off))]
pub fn plot(framebuffer: &mut [u8], x: u16, y: u16, c: Colour)
    ensures { framebuffer.new ≡ fill (point x y) c.black framebuffer.old }
{
    if x < WIDTH {
        stamp(framebuffer, cell(x, y), 128u8 >> (x % 8), c);
    }
}

// Whether a pixel is black; beyond the framebuffer all are white.
#[tactic(auto, using(crate::proofs::Strokes::black_on, crate::proofs::Strokes::black_right))]
pub fn is_black(framebuffer: &[u8], x: u16, y: u16) -> bool
    ensures { result ≡ black framebuffer.now x y }
{
    let byte = framebuffer.get(cell(x, y)).copied().unwrap_or(0);
    x < WIDTH && (byte >> (7 - x % 8)) % 2 == 1
}

// Rows of a framebuffer to lend on: their first byte, the byte behind them, and how many they are.
#[derive(Clone, Copy)]
pub struct Rows {
    pub from: usize,
    pub to: usize,
    pub count: u16,
}

// The first byte of row y, or the end of a framebuffer of `len` bytes that has no such row.
fn row_start(len: usize, y: u16) -> usize
    ensures { result ≡ row_start len y }
{
    len.min(STRIDE * usize::from(y))
}

// Rows y1 up to, and not with, y2 of a framebuffer of `len` bytes, as far as it has them.
pub fn rows_between(len: usize, y1: u16, y2: u16) -> Rows
    ensures { RowsAre len y1 y2 result }
{
    let from = row_start(len, y1);
    let to = row_start(len, y2).max(from);
    let count = (to - from).div_ceil(STRIDE) as u16;
    Rows { from, to, count }
}
