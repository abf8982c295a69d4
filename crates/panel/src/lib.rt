// The panel as it stands in the bytes of the state record: one bar, strip or setting read, or written where it stands. Any bytes may
// be lent, and any number of them: behind their end all are 0, and what is written there is lost.
#![tactic(auto)]

ghost use Rattle.std.specs.Prelude.{◌≡◌, true, false, set};
ghost use Rattle.state.specs.State.{bar_at, strip_at, with_bars, with_strips, with_serial, with_contrast, with_backlight, with_used, bar_slot, strip};
ghost use Rattle.record.specs.Reading.{panel_of};
ghost use Rattle.panel.specs.Revised.{revised, serial, backlight};

use bar_graph::Bar;
use lent_bytes::byte_at;
use record::{BAR_SIZE, STRIP_SIZE, part_at, put};
use state::{BARS, BarSlot, STRIPS, Serial, Strip};

// Where the parts stand behind the panel's front; the bars stand there.
pub const STRIPS_AT: usize = 112;

pub const SERIAL: usize = 152;

pub const CONTRAST: usize = 155;

pub const BACKLIGHT: usize = 156;

pub const MINUTES: usize = 157;

pub const USED: usize = 158;

// Bars and strips have a reader and a writer each: their fields differ, and what is the same of them is `part_at` and `put`.

#[tactic(auto, using(crate::proofs::Laws::no_bar_lem, crate::proofs::Laws::bar_read))]
pub fn bar_at(panel: &[u8], number: u8) -> BarSlot
    ensures { result ≡ bar_at (panel_of panel.now) number }
{
    let i = usize::from(number);
    if i >= BARS {
        return BarSlot {
            on: false,
            bar: Bar {
                kind: 0,
                x1: 0,
                y1: 0,
                x2: 0,
                y2: 0,
                value: 0,
            },
        };
    }
    let [on, kind, x1, y1, x2, y2, value] = part_at::<BAR_SIZE>(panel, BAR_SIZE * i);
    BarSlot {
        on: on == 1,
        bar: Bar {
            kind,
            x1,
            y1,
            x2,
            y2,
            value,
        },
    }
}

// Set up as this one; a number that there is not changes nothing.
#[tactic(auto, using(crate::proofs::Laws::bar_out, crate::proofs::Laws::bar_put))]
pub fn set_bar(panel: &mut [u8], number: u8, bar: Bar)
    ensures { panel.new ≡ revised panel.old (with_bars (panel_of panel.old) (set (panel_of panel.old).bars number (bar_slot true bar))) }
{
    let i = usize::from(number);
    if i >= BARS {
        return;
    }
    let bytes = [1, bar.kind, bar.x1, bar.y1, bar.x2, bar.y2, bar.value];
    put(panel, BAR_SIZE * i, &bytes);
}

#[tactic(auto, using(crate::proofs::Laws::no_strip_lem, crate::proofs::Laws::strip_read))]
pub fn strip_at(panel: &[u8], number: u8) -> Strip
    ensures { result ≡ strip_at (panel_of panel.now) number }
{
    let i = usize::from(number);
    if i >= STRIPS {
        return Strip {
            on: false,
            x1: 0,
            y1: 0,
            x2: 0,
            y2: 0,
        };
    }
    let [on, x1, y1, x2, y2] = part_at::<STRIP_SIZE>(panel, STRIPS_AT + STRIP_SIZE * i);
    Strip {
        on: on == 1,
        x1,
        y1,
        x2,
        y2,
    }
}

#[tactic(auto, using(crate::proofs::Laws::strip_out, crate::proofs::Laws::strip_put))]
pub fn set_strip(panel: &mut [u8], number: u8, x1: u8, y1: u8, x2: u8, y2: u8)
    ensures { panel.new ≡ revised panel.old (with_strips (panel_of panel.old) (set (panel_of panel.old).strips number (strip true x1 y1 x2 y2))) }
{
    let i = usize::from(number);
    if i >= STRIPS {
        return;
    }
    put(panel, STRIPS_AT + STRIP_SIZE * i, &[1, x1, y1, x2, y2]);
}

#[tactic(auto, unfolding(queue::specs::Record::bytes_from, record::specs::Reading::panel_of))]
pub fn serial_in(panel: &[u8]) -> Serial
    ensures { result ≡ (panel_of panel.now).serial }
{
    let [stored, a, b] = part_at::<3>(panel, SERIAL);
    Serial {
        on: stored == 1,
        a,
        b,
    }
}

#[tactic(auto, using(crate::proofs::Parts::serial_written))]
pub fn set_serial(panel: &mut [u8], a: u8, b: u8)
    ensures { panel.new ≡ revised panel.old (with_serial (panel_of panel.old) (serial true a b)) }
{
    put(panel, SERIAL, &[1, a, b]);
}

#[tactic(auto, using(crate::proofs::Parts::contrast_written))]
pub fn set_contrast(panel: &mut [u8], contrast: u8)
    ensures { panel.new ≡ revised panel.old (with_contrast (panel_of panel.old) contrast) }
{
    put(panel, CONTRAST, &[contrast]);
}

#[tactic(auto, using(crate::proofs::Parts::lit_written))]
pub fn set_backlight(panel: &mut [u8], minutes: u8)
    ensures { panel.new ≡ revised panel.old (with_backlight (panel_of panel.old) (backlight true minutes)) }
{
    put(panel, BACKLIGHT, &[1, minutes]);
}

// The minutes stay, and so does a byte that says off already.
#[tactic(auto, using(crate::proofs::Parts::dark_written, crate::proofs::Laws::dark_kept))]
pub fn clear_backlight(panel: &mut [u8])
    ensures { panel.new ≡ revised panel.old (with_backlight (panel_of panel.old) (backlight false (panel_of panel.old).backlight.minutes)) }
{
    if byte_at(panel, BACKLIGHT) == 1 {
        put(panel, BACKLIGHT, &[0]);
    }
}

// The used room.
#[tactic(auto, using(crate::proofs::Laws::used_read))]
pub fn used_in(panel: &[u8]) -> u16
    ensures { result ≡ (panel_of panel.now).used }
{
    u16::from_le_bytes(part_at(panel, USED))
}

#[tactic(auto, using(crate::proofs::Laws::used_put))]
pub fn set_used(panel: &mut [u8], used: u16)
    ensures { panel.new ≡ revised panel.old (with_used (panel_of panel.old) used) }
{
    put(panel, USED, &used.to_le_bytes());
}
