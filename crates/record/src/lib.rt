// The record of 209 bytes in which a caller keeps the state: its layout, what is read from it, and bytes written over it.
#![tactic(auto)]

mod reading;
mod writing;

ghost use Rattle.std.specs.Prelude.{◌≡◌};
ghost use Rattle.record.specs.Reading.{height_in, config_in, used_in, decode_of};

use lent_bytes::byte_at;
use queue::Flow;
use reading::flow_of;
pub use reading::{decode_port, part_at};
use state::Config;
pub use writing::{copy_bytes, put};

// Where the parts stand. The phase: 0 idle, 1 prefix, 2 gathering, 3 in line, 4 upload.
pub const PHASE: usize = 0;

// Gathering: code, got.
pub const CODE: usize = 1;

pub const GOT: usize = 2;

// The six arguments.
pub const GATHERED: usize = 3;

// Data in line: x1, y1, x2, y2, done (2).
pub const INLINE: usize = 9;

// Upload: sort, number (2), size (2), stored (2), waiting, byte, waited (2).
pub const UPLOAD: usize = 15;

// Text: font (2), x (2), y, left, top, char_space, line_space, scroll_row, wrap, scroll.
pub const TEXT: usize = 26;

// Drawing: colour (1 black, 0 white), x, y.
pub const DRAWING: usize = 38;

// Flow: on, full, empty.
pub const FLOW: usize = 41;

pub const FLOW_FULL: usize = 42;

pub const FLOW_EMPTY: usize = 43;

// Refusals: count (2), last.
pub const REFUSAL_COUNT: usize = 44;

pub const LAST_REFUSAL: usize = 46;

// The framebuffer's height, in rows.
pub const HEIGHT: usize = 47;

// The edition of the upload protocol.
pub const EDITION: usize = 48;

// From here on what belongs to the display.
pub const PANEL: usize = 49;

// Sixteen bars: on, kind, x1, y1, x2, y2, value.
pub const FIRST_BAR: usize = 49;

pub const BAR_SIZE: usize = 7;

// Eight strips: on, x1, y1, x2, y2.
pub const FIRST_STRIP: usize = 161;

pub const STRIP_SIZE: usize = 5;

// Serial: on, a, b.
pub const SERIAL: usize = 201;

pub const CONTRAST: usize = 204;

pub const BACKLIGHT: usize = 205;

pub const MINUTES: usize = 206;

// The used room (2).
pub const USED: usize = 207;

pub const RECORD: usize = 209;

// The height that a record says; a short record goes on with zeros.
pub fn height_in(r: &[u8]) -> u8
    ensures { result ≡ height_in r.now }
{
    byte_at(r, HEIGHT)
}

// What the board chose at start.
pub fn config_in(r: &[u8]) -> Config
    ensures { result ≡ config_in r.now }
{
    Config {
        height: height_in(r),
        edition: byte_at(r, EDITION),
    }
}

// Its flow control.
#[tactic(auto, unfolding(crate::specs::Reading::decode_of, crate::specs::Reading::port_of))]
pub fn flow_in(r: &[u8]) -> Flow
    ensures { result ≡ (decode_of r.now).port.flow }
{
    flow_of(r)
}

// The used room that it keeps.
pub fn used_in(r: &[u8]) -> u16
    ensures { result ≡ used_in r.now }
{
    u16::from_le_bytes([byte_at(r, USED), byte_at(r, USED + 1)])
}
