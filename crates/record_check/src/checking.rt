// Whether the parts of a record of full length may be accepted, each tested where it stands.
ghost use Rattle.std.specs.Prelude.{◌≡◌, ◌&&◌, ◌||◌, ◌+◌, ◌-◌, ◌<◌, ◌≤◌, eqb, ltb, length, drop};
ghost use Rattle.queue.specs.Record.{at, Bytes};
ghost use Rattle.record.specs.Layout.{phase_at, panel_at, bars_at, bar_size, strips_at, strip_size, serial_at, record_size};
ghost use Rattle.record.specs.Reading.{pair_at};
ghost use Rattle.record_check.specs.Parts.{clear, every_of, phase_holds, text_holds, other_holds, port_holds, slot_holds, strip_holds, panel_holds};

use bar_graph::Bar;
use record::{
    BACKLIGHT, BAR_SIZE, CODE, CONTRAST, DRAWING, EDITION, FIRST_BAR, FIRST_STRIP, FLOW,
    FLOW_EMPTY, FLOW_FULL, GATHERED, GOT, INLINE, PHASE, SERIAL, STRIP_SIZE, TEXT, UPLOAD,
};
use state::{BARS, STRIPS, are_corners_sound, is_gathering, is_inline, is_set_up_sound, is_upload};

// A record of full length.
#[derive(Clone, Copy)]
pub struct Record<'a> {
    pub bytes: &'a [u8],
    ghost full_length: { length bytes.now ≡ record_size },
    // That each item is a byte: a proof does not see it of a slice in a struct.
    ghost are_bytes: { Bytes bytes.now },
}

impl<'a> Record<'a> {
    fn is_flag(self, k: usize) -> bool
        requires { k < record_size }
        ensures { result ≡ ltb (at self.entry.bytes.now k) 2 }
    {
        self.bytes[k] < 2
    }

    fn pair_at(self, k: usize) -> u16
        requires { k + 1 < record_size }
        ensures { result ≡ pair_at self.entry.bytes.now k }
    {
        u16::from_le_bytes([self.bytes[k], self.bytes[k + 1]])
    }

    // To the end, whatever is found: a loop with one way out is done many bytes at a time.
    #[tactic(auto, using(crate::proofs::Standing::cleared_more, crate::proofs::Standing::cleared_end))]
    fn is_clear(self, from: usize, to: usize) -> bool
        requires { to ≤ record_size }
        ensures { result ≡ clear from (to - from) self.entry.bytes.now }
    {
        let mut none = true;
        for k in from..to {
            none &= self.bytes[k] == 0;
        }
        none
    }

    #[tactic(auto, using(crate::proofs::Testing::gathering_holds))]
    fn is_gathering_phase(self) -> bool
        requires { at self.bytes.now phase_at ≡ 2 }
        ensures { result ≡ phase_holds self.entry.bytes.now }
    {
        let got = self.bytes[GOT];
        is_gathering(self.bytes[EDITION], self.bytes[CODE], got)
            && self.is_clear(GATHERED + usize::from(got), INLINE)
            && self.is_clear(INLINE, TEXT)
    }

    #[tactic(auto, using(crate::proofs::Testing::inline_holds))]
    fn is_inline_phase(self) -> bool
        requires { at self.bytes.now phase_at ≡ 3 }
        ensures { result ≡ phase_holds self.entry.bytes.now }
    {
        let done = self.pair_at(INLINE + 4);
        is_inline(
            self.bytes[INLINE],
            self.bytes[INLINE + 1],
            self.bytes[INLINE + 2],
            self.bytes[INLINE + 3],
            done,
        ) && self.is_clear(CODE, INLINE)
            && self.is_clear(UPLOAD, TEXT)
    }

    #[tactic(auto, using(crate::proofs::Testing::upload_holds))]
    fn is_upload_phase(self) -> bool
        requires { at self.bytes.now phase_at ≡ 4 }
        ensures { result ≡ phase_holds self.entry.bytes.now }
    {
        let size = self.pair_at(UPLOAD + 3);
        let stored = self.pair_at(UPLOAD + 5);
        let waited = self.pair_at(UPLOAD + 9);
        let sound = is_upload(
            self.bytes[UPLOAD],
            size,
            stored,
            self.bytes[UPLOAD + 7] == 1,
            self.bytes[UPLOAD + 8],
            waited,
        );
        sound && self.is_clear(CODE, UPLOAD) && self.is_flag(UPLOAD + 7)
    }

    #[tactic(auto, using(crate::proofs::Testing::phase_low, crate::proofs::Testing::phase_high))]
    fn is_phase(self) -> bool
        ensures { result ≡ phase_holds self.entry.bytes.now }
    {
        match self.bytes[PHASE] {
            0 | 1 => self.is_clear(CODE, TEXT),
            2 => self.is_gathering_phase(),
            3 => self.is_inline_phase(),
            4 => self.is_upload_phase(),
            _ => false,
        }
    }

    // The row of the text point is a byte.
    #[tactic(auto, using(crate::proofs::Testing::text_is))]
    fn is_text(self) -> bool
        ensures { result ≡ text_holds self.entry.bytes.now }
    {
        self.pair_at(TEXT + 2) <= 495 && self.is_flag(TEXT + 10) && self.is_flag(TEXT + 11)
    }

    // Drawing, flow, refusals.
    #[tactic(auto, using(crate::proofs::Testing::others_are))]
    fn are_others(self) -> bool
        ensures { result ≡ other_holds self.entry.bytes.now }
    {
        u16::from(self.bytes[FLOW_FULL]) + u16::from(self.bytes[FLOW_EMPTY]) < 80
            && self.is_flag(DRAWING)
            && self.is_flag(FLOW)
    }

    #[tactic(auto, using(crate::proofs::Deciding::port_is))]
    pub fn is_port(self) -> bool
        ensures { result ≡ port_holds self.entry.bytes.now }
    {
        self.is_text() && self.are_others() && self.is_phase()
    }

    // No generic function for a bar and a strip: what is asked of the fields, which is all but one line of each, would be a closure of its own.
    #[tactic(auto, using(crate::proofs::SetUp::bar_set_up, crate::proofs::SetUp::bar_clear))]
    fn is_bar(self, k: usize, height: u8) -> bool
        requires { k + bar_size ≤ record_size }
        ensures { result ≡ slot_holds height (drop k self.entry.bytes.now) }
    {
        if self.bytes[k] != 1 {
            return self.is_clear(k, k + BAR_SIZE);
        }
        let bar = Bar {
            kind: self.bytes[k + 1],
            x1: self.bytes[k + 2],
            y1: self.bytes[k + 3],
            x2: self.bytes[k + 4],
            y2: self.bytes[k + 5],
            value: self.bytes[k + 6],
        };
        is_set_up_sound(bar, height)
    }

    fn are_bars(self, height: u8) -> bool
        ensures { result ≡ every_of (slot_holds height) bar_size (drop bars_at self.entry.bytes.now) 16 }
    {
        (0..BARS).all(|i| self.is_bar(FIRST_BAR + BAR_SIZE * i, height))
    }

    #[tactic(auto, using(crate::proofs::SetUp::strip_set_up, crate::proofs::SetUp::strip_clear))]
    fn is_strip(self, k: usize, height: u8) -> bool
        requires { k + strip_size ≤ record_size }
        ensures { result ≡ strip_holds height (drop k self.entry.bytes.now) }
    {
        if self.bytes[k] != 1 {
            return self.is_clear(k, k + STRIP_SIZE);
        }
        are_corners_sound(
            height,
            self.bytes[k + 1],
            self.bytes[k + 2],
            self.bytes[k + 3],
            self.bytes[k + 4],
        )
    }

    fn are_strips(self, height: u8) -> bool
        ensures { result ≡ every_of (strip_holds height) strip_size (drop strips_at self.entry.bytes.now) 8 }
    {
        (0..STRIPS).all(|i| self.is_strip(FIRST_STRIP + STRIP_SIZE * i, height))
    }

    fn is_serial(self) -> bool
        ensures { result ≡ (eqb (at self.entry.bytes.now serial_at) 1 || clear serial_at 3 self.entry.bytes.now) }
    {
        self.bytes[SERIAL] == 1 || self.is_clear(SERIAL, CONTRAST)
    }

    // Where nothing is set up, that is told many bytes at a time.
    fn are_graphs(self, height: u8) -> bool
        ensures { result ≡ (every_of (slot_holds height) bar_size (drop bars_at self.entry.bytes.now) 16 && every_of (strip_holds height) strip_size (drop strips_at self.entry.bytes.now) 8) }
    {
        self.is_clear(FIRST_BAR, SERIAL) || self.are_bars(height) && self.are_strips(height)
    }

    #[tactic(auto, using(crate::proofs::Deciding::backlight_refused, crate::proofs::Deciding::serial_refused))]
    pub fn is_panel(self, height: u8) -> bool
        ensures { result ≡ panel_holds height (drop panel_at self.entry.bytes.now) }
    {
        self.is_flag(BACKLIGHT) && self.is_serial() && self.are_graphs(height)
    }
}
