// The five calls of a board: start, feed, time, arrive, take. Any bytes, of any length, may be lent to them.
#![tactic(auto)]

ghost use Rattle.std.specs.Prelude.{◌≡◌, length};
ghost use Rattle.queue.specs.Numbers.{signal_number};
ghost use Rattle.calls.specs.Memory.{memory};
ghost use Rattle.calls.specs.Start.{started, start_of, emptied};
ghost use Rattle.calls.specs.Line.{served, arrive_call, take_call};
ghost use Rattle.feed.specs.Faults.{number_of};
ghost use Rattle.feed.specs.Called.{called, feed_call, timed, time_call};
ghost use Rattle.state.specs.State.{config};

use canvas::{is_height, length_for};
use directory::survey;
use feed::{Fault, feed_piece, number_of, pass_time, store_fits};
use queue::{HELD, LOST, LOST_HIGH, MARK, PLACE, Signal};
use record::RECORD;
use state::{Config, is_edition, start_state};

// Nothing held, nothing lost; the ring's bytes stay.
fn empty_queue(queue: &mut [u8])
    requires { length queue.old ≡ 85 }
    ensures { queue.new ≡ emptied queue.old }
{
    queue[PLACE] = 0;
    queue[HELD] = 0;
    queue[MARK] = 0;
    queue[LOST] = 0;
    queue[LOST_HIGH] = 0;
}

// The checks of a start in their order, and what it writes.
#[tactic(auto, unfolding(calls::specs::Start::start_of, calls::specs::Start::start_checked))]
fn start(
    height: u32,
    edition: u32,
    framebuffer: &mut [u8],
    store: &[u8],
    state: &mut [u8],
    queue: &mut [u8],
) -> Result<(), Fault>
    ensures { started (memory framebuffer.new store.now state.new) queue.new (number_of result) ≡ start_of (config height edition) (memory framebuffer.old store.now state.old) queue.old }
{
    if !is_height(height) || state.len() != RECORD || queue.len() != queue::RECORD {
        return Err(Fault::BadRecord);
    }
    let rows = height as u8;
    if framebuffer.len() != length_for(rows) {
        return Err(Fault::BadFramebuffer);
    }
    if !store_fits(store) {
        return Err(Fault::BadStore);
    }
    if !is_edition(edition) {
        return Err(Fault::BadRecord);
    }
    let totals = survey(store).ok_or(Fault::BadDirectory)?;
    scroll::clear(framebuffer);
    let config = Config {
        height: rows,
        edition: edition as u8,
    };
    let s = start_state(config, totals.used as u16);
    record_write::encode(s, state);
    empty_queue(queue);
    Ok(())
}

// A white framebuffer of so many rows, the start's state in an edition of the upload protocol with what the files of the store use, an empty queue; the store stays.
pub fn display_start(
    height: u32,
    edition: u32,
    framebuffer: &mut [u8],
    store: &mut [u8],
    state: &mut [u8],
    queue: &mut [u8],
) -> u32
    ensures { started (memory framebuffer.new store.new state.new) queue.new result ≡ start_of (config height edition) (memory framebuffer.old store.old state.old) queue.old }
{
    number_of(start(height, edition, framebuffer, store, state, queue))
}

// A piece of the stream.
pub fn display_feed(
    framebuffer: &mut [u8],
    store: &mut [u8],
    state: &mut [u8],
    piece: &[u8],
    replies: &mut [u8],
    consumed: &mut usize,
    replied: &mut usize,
) -> u32
    ensures { called result (memory framebuffer.new store.new state.new) replies.new consumed.new replied.new ≡ feed_call (memory framebuffer.old store.old state.old) piece.now replies.old }
{
    let done = feed_piece(framebuffer, store, state, piece, replies, consumed, replied);
    number_of(done)
}

// Milliseconds that have passed since the last such call.
pub fn display_time(
    framebuffer: &[u8],
    store: &[u8],
    state: &mut [u8],
    milliseconds: u32,
    replies: &mut [u8],
    replied: &mut usize,
) -> u32
    ensures { timed result (memory framebuffer.now store.now state.new) replies.new replied.new ≡ time_call (memory framebuffer.now store.now state.old) milliseconds replies.old }
{
    let done = pass_time(framebuffer, store, state, milliseconds, replies, replied);
    number_of(done)
}

// 0 where nothing is sent.
fn number_sent(sent: Option<Signal>) -> u8
    ensures { result ≡ signal_number sent }
{
    sent.map_or(0, u8::from)
}

// A byte comes in on the line.
pub fn display_arrive(state: &[u8], queue: &mut [u8], byte: u8, signal: &mut u8) -> u32
    ensures { served result 0 signal.new queue.new ≡ arrive_call state.now queue.old byte }
{
    *signal = 0;
    if !record_check::is_record(state) {
        return u32::from(Fault::BadRecord);
    }
    let flow = record::flow_in(state);
    match queue::arrive(queue, flow, byte) {
        Ok(sent) => {
            *signal = number_sent(sent);
            0
        }
        Err(error) => u32::from(u8::from(error)), // full, or not sound
    }
}

// A byte is taken to be fed.
pub fn display_take(state: &[u8], queue: &mut [u8], byte: &mut u8, signal: &mut u8) -> u32
    ensures { served result byte.new signal.new queue.new ≡ take_call state.now queue.old }
{
    *byte = 0;
    *signal = 0;
    if !record_check::is_record(state) {
        return u32::from(Fault::BadRecord);
    }
    let flow = record::flow_in(state);
    match queue::take(queue, flow) {
        Ok(taken) => {
            *byte = taken.byte;
            *signal = number_sent(taken.signal);
            0
        }
        Err(error) => u32::from(u8::from(error)), // empty, or not sound
    }
}
