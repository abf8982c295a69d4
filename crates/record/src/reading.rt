// The parts of a state, read from a record.
ghost use Rattle.std.specs.Prelude.{◌≡◌, drop};
ghost use Rattle.queue.specs.Record.{bytes_from};
ghost use Rattle.record.specs.Layout.{arguments_at, inline_at, upload_at, text_at, drawing_at, flow_at, refusals_at};
ghost use Rattle.record.specs.Reading.{inline_of, upload_of, phase_of, arguments_in, text_of, drawing_of, flow_of, refusals_of, port_of};

use super::writing::copy_bytes;
use super::{CODE, DRAWING, FLOW, GATHERED, GOT, INLINE, PHASE, REFUSAL_COUNT, TEXT, UPLOAD};
use canvas::Colour;
use lent_bytes::byte_at;
use queue::Flow;
use state::{ARGUMENTS, Drawing, Line, Phase, Port, Refusals, Text};

// N bytes from k on; behind the end of a record there are only zeros.
pub fn part_at<const N: usize>(r: &[u8], k: usize) -> [u8; N]
    ensures { result ≡ bytes_from (drop k r.now) 0 N }
{
    let rest = &r[k.min(r.len())..];
    let mut part = [0; N];
    // A record that has them all is asked for no other place.
    if N <= rest.len() {
        copy_bytes(&mut part, &rest[..N]);
    } else {
        copy_bytes(&mut part[..rest.len()], rest);
    }
    part
}

#[tactic(auto, unfolding(queue::specs::Record::bytes_from))]
fn inline_of(r: &[u8]) -> Phase
    ensures { result ≡ inline_of (drop inline_at r.now) }
{
    let l: [u8; 6] = part_at(r, INLINE);
    Phase::Inline {
        x1: l[0],
        y1: l[1],
        x2: l[2],
        y2: l[3],
        done: u16::from_le_bytes([l[4], l[5]]),
    }
}

#[tactic(auto, unfolding(queue::specs::Record::bytes_from))]
fn upload_of(r: &[u8]) -> Phase
    ensures { result ≡ upload_of (drop upload_at r.now) }
{
    let l: [u8; 11] = part_at(r, UPLOAD);
    Phase::Upload {
        sort: l[0],
        number: u16::from_le_bytes([l[1], l[2]]),
        size: u16::from_le_bytes([l[3], l[4]]),
        stored: u16::from_le_bytes([l[5], l[6]]),
        waiting: l[7] == 1,
        byte: l[8],
        waited: u16::from_le_bytes([l[9], l[10]]),
    }
}

#[tactic(auto, unfolding(crate::specs::Reading::phase_of))]
fn phase_of(r: &[u8]) -> Phase
    ensures { result ≡ phase_of r.now }
{
    match byte_at(r, PHASE) {
        1 => Phase::Prefix,
        2 => Phase::Gathering {
            code: byte_at(r, CODE),
            got: byte_at(r, GOT),
        },
        3 => inline_of(r),
        4 => upload_of(r),
        _ => Phase::Idle,
    }
}

#[tactic(auto, unfolding(queue::specs::Record::bytes_from))]
fn arguments_in(r: &[u8]) -> [u8; ARGUMENTS]
    ensures { result ≡ arguments_in (drop arguments_at r.now) }
{
    part_at(r, GATHERED)
}

#[tactic(auto, unfolding(queue::specs::Record::bytes_from))]
fn text_of(r: &[u8]) -> Text
    ensures { result ≡ text_of (drop text_at r.now) }
{
    let l: [u8; 12] = part_at(r, TEXT);
    Text {
        font: u16::from_le_bytes([l[0], l[1]]),
        x: u16::from_le_bytes([l[2], l[3]]),
        y: l[4],
        left: l[5],
        top: l[6],
        char_space: l[7],
        line_space: l[8],
        scroll_row: l[9],
        wrap: l[10] == 1,
        scroll: l[11] == 1,
    }
}

#[tactic(auto, unfolding(queue::specs::Record::bytes_from))]
fn drawing_of(r: &[u8]) -> Drawing
    ensures { result ≡ drawing_of (drop drawing_at r.now) }
{
    let l: [u8; 3] = part_at(r, DRAWING);
    Drawing {
        colour: Colour::from(l[0]),
        x: l[1],
        y: l[2],
    }
}

#[tactic(auto, unfolding(queue::specs::Record::bytes_from))]
pub fn flow_of(r: &[u8]) -> Flow
    ensures { result ≡ flow_of (drop flow_at r.now) }
{
    let l: [u8; 3] = part_at(r, FLOW);
    Flow {
        on: l[0] == 1,
        full: l[1],
        empty: l[2],
    }
}

#[tactic(auto, unfolding(queue::specs::Record::bytes_from))]
fn refusals_of(r: &[u8]) -> Refusals
    ensures { result ≡ refusals_of (drop refusals_at r.now) }
{
    let l: [u8; 3] = part_at(r, REFUSAL_COUNT);
    Refusals {
        count: u16::from_le_bytes([l[0], l[1]]),
        last: l[2],
    }
}

// The port that a record says; a short record goes on with zeros.
#[tactic(auto, unfolding(crate::specs::Reading::port_of))]
pub fn decode_port(r: &[u8]) -> Port
    ensures { result ≡ port_of r.now }
{
    Port {
        line: Line {
            phase: phase_of(r),
            args: arguments_in(r),
        },
        text: text_of(r),
        drawing: drawing_of(r),
        flow: flow_of(r),
        refusals: refusals_of(r),
    }
}
