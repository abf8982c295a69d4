// Whether the parts of a state are sound, each by the definition of its name.
ghost use Rattle.std.specs.Prelude.{◌≡◌, ◌&&◌, ◌||◌, ◌-◌, ◌*◌, ◌<◌, ◌≤◌};
ghost use Rattle.state.specs.Editions.{is_edition};
ghost use Rattle.state.specs.Soundness.{inline_bytes, sound_gathering, sound_inline, sound_upload, sound_corners, sound_set_up};
ghost use Rattle.state.specs.Canonical.{canonical_upload};

use super::{Command, NEWER, OLDER, PATIENCE, arguments_of};
use bar_graph::{Bar, length_of};
use canvas::WIDTH;

// The bytes of data in line for a rectangle; corners out of order count as one column or row.
pub fn inline_bytes(x1: u8, y1: u8, x2: u8, y2: u8) -> u16
    ensures { result ≡ inline_bytes x1 y1 x2 y2 }
{
    let across = (u16::from(x2.saturating_sub(x1)) + 8) / 8;
    let rows = u16::from(y2.saturating_sub(y1)) + 1;
    across * rows
}

#[tactic(auto, unfolding(crate::specs::Editions::is_edition))]
pub fn is_edition(edition: u32) -> bool
    ensures { result ≡ is_edition edition }
{
    edition == u32::from(OLDER) || edition == u32::from(NEWER)
}

pub fn is_gathering(edition: u8, code: u8, got: u8) -> bool
    ensures { result ≡ sound_gathering edition code got }
{
    got < arguments_of(edition, Command::from(code))
}

#[tactic(auto, unfolding(crate::specs::Soundness::sound_inline))]
pub fn is_inline(x1: u8, y1: u8, x2: u8, y2: u8, done: u16) -> bool
    ensures { result ≡ sound_inline x1 y1 x2 y2 done }
{
    x1 <= x2 && y1 <= y2 && done < inline_bytes(x1, y1, x2, y2)
}

#[tactic(auto, unfolding(crate::specs::Soundness::sound_upload, crate::specs::Canonical::canonical_upload))]
pub fn is_upload(sort: u8, size: u16, stored: u16, waiting: bool, byte: u8, waited: u16) -> bool
    ensures { result ≡ (sound_upload size stored waited && canonical_upload sort waiting byte) }
{
    let under_way = stored < size && waited < PATIENCE;
    let known = sort == 1 || sort == 2;
    under_way && known && (waiting || byte == 0)
}

pub fn are_corners_sound(height: u8, x1: u8, y1: u8, x2: u8, y2: u8) -> bool
    ensures { result ≡ sound_corners height x1 y1 x2 y2 }
{
    x1 < x2 && y1 < y2 && u16::from(x2) < WIDTH && y2 < height
}

#[tactic(auto, unfolding(crate::specs::Soundness::sound_set_up))]
pub fn is_set_up_sound(bar: Bar, height: u8) -> bool
    ensures { result ≡ sound_set_up height bar }
{
    are_corners_sound(height, bar.x1, bar.y1, bar.x2, bar.y2)
        && u16::from(bar.value) <= length_of(bar)
        && bar.kind < 4
}
