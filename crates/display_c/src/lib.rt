// The five calls of a board for C, each that of crates/display with its clauses. What a board links is made of this crate.
#![tactic(auto)]

ghost use Rattle.std.specs.Prelude.{◌≡◌};
ghost use Rattle.calls.specs.Memory.{memory};
ghost use Rattle.calls.specs.Start.{started, start_of};
ghost use Rattle.calls.specs.Line.{served, arrive_call, take_call};
ghost use Rattle.feed.specs.Called.{called, feed_call, timed, time_call};
ghost use Rattle.state.specs.State.{config};

// A white framebuffer of so many rows, the start's state in an edition of the upload protocol with what the files of the store use, an empty queue; the store stays.
#[unsafe(no_mangle)]
pub extern "C" fn display_start(
    height: u32,
    edition: u32,
    framebuffer: &mut [u8],
    store: &mut [u8],
    state: &mut [u8],
    queue: &mut [u8],
) -> u32
    ensures { started (memory framebuffer.new store.new state.new) queue.new result ≡ start_of (config height edition) (memory framebuffer.old store.old state.old) queue.old }
{
    display::display_start(height, edition, framebuffer, store, state, queue)
}

// A piece of the stream.
#[unsafe(no_mangle)]
pub extern "C" fn display_feed(
    framebuffer: &mut [u8],
    store: &mut [u8],
    state: &mut [u8],
    piece: &[u8],
    replies: &mut [u8],
    consumed: &mut usize,
    replied: &mut usize,
) -> u32
    ensures { called result (memory framebuffer.new store.new state.new) replies.new consumed.new replied.new ≡ feed_call (memory framebuffer.old store.old state.old) piece.now replies.old }
{
    display::display_feed(framebuffer, store, state, piece, replies, consumed, replied)
}

// Milliseconds that have passed since the last such call.
#[unsafe(no_mangle)]
pub extern "C" fn display_time(
    framebuffer: &[u8],
    store: &[u8],
    state: &mut [u8],
    milliseconds: u32,
    replies: &mut [u8],
    replied: &mut usize,
) -> u32
    ensures { timed result (memory framebuffer.now store.now state.new) replies.new replied.new ≡ time_call (memory framebuffer.now store.now state.old) milliseconds replies.old }
{
    display::display_time(framebuffer, store, state, milliseconds, replies, replied)
}

// A byte comes in on the line.
#[unsafe(no_mangle)]
pub extern "C" fn display_arrive(state: &[u8], queue: &mut [u8], byte: u8, signal: &mut u8) -> u32
    ensures { served result 0 signal.new queue.new ≡ arrive_call state.now queue.old byte }
{
    display::display_arrive(state, queue, byte, signal)
}

// A byte is taken to be fed.
#[unsafe(no_mangle)]
pub extern "C" fn display_take(
    state: &[u8],
    queue: &mut [u8],
    byte: &mut u8,
    signal: &mut u8,
) -> u32
    ensures { served result byte.new signal.new queue.new ≡ take_call state.now queue.old }
{
    display::display_take(state, queue, byte, signal)
}
