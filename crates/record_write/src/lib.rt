// The record of a state, written over the bytes that a caller keeps.
#![tactic(auto)]

ghost use Rattle.std.specs.Prelude.{◌≡◌, [], ◌∷◌, ◌+◌, ◌≤◌, length};
ghost use Rattle.record.specs.Layout.{phase_at, arguments_at, port_size, height_at, bars_at, strips_at};
ghost use Rattle.record.specs.Writing.{many_bytes, gathering_bytes, data_bytes, upload_bytes, text_bytes, other_bytes, phase_bytes, port_bytes};
ghost use Rattle.record.specs.Writing.{slot_bytes, strip_bytes, last_bytes, panel_bytes, over};
ghost use Rattle.record.specs.Record.{encoded_in};

use record::{
    BAR_SIZE, DRAWING, FIRST_BAR, FIRST_STRIP, GATHERED, HEIGHT, INLINE, PHASE, SERIAL, STRIP_SIZE,
    TEXT, UPLOAD, copy_bytes, put,
};
use state::{ARGUMENTS, BARS, BarSlot, Config, Panel, Phase, Port, STRIPS, State, Strip, Text};

// Writes bytes from index k on, where there is room for all of them.
#[tactic(auto, using(crate::proofs::Loops::over_inside))]
fn put_inside(out: &mut [u8], k: usize, bytes: &[u8])
    requires { k + length bytes.now ≤ length out.old }
    ensures { out.new ≡ over bytes.now k out.old }
{
    copy_bytes(&mut out[k..k + bytes.len()], bytes);
}

// The tag of the phase, and what is gathered.
fn gathering_bytes(phase: Phase) -> [u8; 3]
    ensures { result ≡ gathering_bytes phase }
{
    match phase {
        Phase::Idle => [0, 0, 0],
        Phase::Prefix => [1, 0, 0],
        Phase::Gathering { code, got } => [2, code, got],
        Phase::Inline { .. } => [3, 0, 0],
        Phase::Upload { .. } => [4, 0, 0],
    }
}

fn data_bytes(phase: Phase) -> [u8; 6]
    ensures { result ≡ data_bytes phase }
{
    match phase {
        Phase::Inline {
            x1,
            y1,
            x2,
            y2,
            done,
        } => {
            let done = done.to_le_bytes();
            [x1, y1, x2, y2, done[0], done[1]]
        }
        _ => [0; 6],
    }
}

fn upload_bytes(phase: Phase) -> [u8; 11]
    ensures { result ≡ upload_bytes phase }
{
    match phase {
        Phase::Upload {
            sort,
            number,
            size,
            stored,
            waiting,
            byte,
            waited,
        } => {
            let number = number.to_le_bytes();
            let size = size.to_le_bytes();
            let stored = stored.to_le_bytes();
            let waited = waited.to_le_bytes();
            [
                sort,
                number[0],
                number[1],
                size[0],
                size[1],
                stored[0],
                stored[1],
                u8::from(waiting),
                byte,
                waited[0],
                waited[1],
            ]
        }
        _ => [0; 11],
    }
}

fn text_bytes(t: Text) -> [u8; 12]
    ensures { result ≡ text_bytes t }
{
    let font = t.font.to_le_bytes();
    let x = t.x.to_le_bytes();
    [
        font[0],
        font[1],
        x[0],
        x[1],
        t.y,
        t.left,
        t.top,
        t.char_space,
        t.line_space,
        t.scroll_row,
        u8::from(t.wrap),
        u8::from(t.scroll),
    ]
}

// Drawing, flow, refusals.
fn other_bytes(p: Port) -> [u8; 9]
    ensures { result ≡ other_bytes p }
{
    let count = p.refusals.count.to_le_bytes();
    [
        u8::from(p.drawing.colour.black),
        p.drawing.x,
        p.drawing.y,
        u8::from(p.flow.on),
        p.flow.full,
        p.flow.empty,
        count[0],
        count[1],
        p.refusals.last,
    ]
}

fn encode_arguments(args: [u8; ARGUMENTS], out: &mut [u8])
    requires { port_size ≤ length out.old }
    ensures { (out.new ≡ over args arguments_at out.old) × (length args ≡ 6) }
{
    put_inside(out, GATHERED, &args);
}

fn encode_phase(port: Port, out: &mut [u8])
    requires { port_size ≤ length out.old }
    ensures { (out.new ≡ over (phase_bytes port) phase_at out.old) × (length port.line.args ≡ 6) }
{
    let line = port.line;
    put_inside(out, PHASE, &gathering_bytes(line.phase));
    encode_arguments(line.args, out);
    put_inside(out, INLINE, &data_bytes(line.phase));
    put_inside(out, UPLOAD, &upload_bytes(line.phase));
}

// The bytes of a port over the first bytes of a record that has room for them all.
fn encode_inside(port: Port, out: &mut [u8])
    requires { port_size ≤ length out.old }
    ensures { (out.new ≡ over (port_bytes port) phase_at out.old) × (length port.line.args ≡ 6) }
{
    encode_phase(port, out);
    put_inside(out, TEXT, &text_bytes(port.text));
    put_inside(out, DRAWING, &other_bytes(port));
}

// Writes the bytes of a port over the first bytes, as far as there are any; all others stay.
pub fn encode_port(port: Port, out: &mut [u8])
    ensures { (out.new ≡ over (port_bytes port) phase_at out.old) × (length port.line.args ≡ 6) }
{
    if out.len() >= HEIGHT {
        encode_inside(port, out);
        return;
    }
    // A shorter record gets as many of them as it has room for.
    let mut whole = [0; HEIGHT];
    encode_inside(port, &mut whole);
    put(out, PHASE, &whole);
}

// Height and edition.
fn encode_config(config: Config, out: &mut [u8])
    ensures { out.new ≡ over (config.height ∷ config.edition ∷ []) height_at out.old }
{
    put(out, HEIGHT, &[config.height, config.edition]);
}

fn slot_bytes(s: BarSlot) -> [u8; BAR_SIZE]
    ensures { result ≡ slot_bytes s }
{
    [
        u8::from(s.on),
        s.bar.kind,
        s.bar.x1,
        s.bar.y1,
        s.bar.x2,
        s.bar.y2,
        s.bar.value,
    ]
}

// No generic function for bars and strips: a trait for the bytes of each, with a size and laws, is longer than the two loops.
fn encode_bars(bars: [BarSlot; BARS], out: &mut [u8])
    ensures { (out.new ≡ over (many_bytes slot_bytes bars) bars_at out.old) × (length bars ≡ 16) }
{
    for i in 0..BARS {
        put(out, FIRST_BAR + BAR_SIZE * i, &slot_bytes(bars[i]));
    }
}

fn strip_bytes(s: Strip) -> [u8; STRIP_SIZE]
    ensures { result ≡ strip_bytes s }
{
    [u8::from(s.on), s.x1, s.y1, s.x2, s.y2]
}

fn encode_strips(strips: [Strip; STRIPS], out: &mut [u8])
    ensures { (out.new ≡ over (many_bytes strip_bytes strips) strips_at out.old) × (length strips ≡ 8) }
{
    for i in 0..STRIPS {
        put(out, FIRST_STRIP + STRIP_SIZE * i, &strip_bytes(strips[i]));
    }
}

// Serial, contrast, backlight, the used room.
fn last_bytes(p: Panel) -> [u8; 8]
    ensures { result ≡ last_bytes p }
{
    let used = p.used.to_le_bytes();
    [
        u8::from(p.serial.on),
        p.serial.a,
        p.serial.b,
        p.contrast,
        u8::from(p.backlight.on),
        p.backlight.minutes,
        used[0],
        used[1],
    ]
}

fn encode_panel(panel: Panel, out: &mut [u8])
    ensures { (out.new ≡ over (panel_bytes panel) bars_at out.old) × (length panel.bars ≡ 16) × (length panel.strips ≡ 8) }
{
    encode_bars(panel.bars, out);
    encode_strips(panel.strips, out);
    put(out, SERIAL, &last_bytes(panel));
}

// Writes the record of a state over the first bytes, as far as there are any; all others stay.
pub fn encode(s: State, out: &mut [u8])
    ensures { out.new ≡ encoded_in s out.old }
{
    encode_port(s.port, out);
    encode_config(s.config, out);
    encode_panel(s.panel, out);
}
