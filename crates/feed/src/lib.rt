// What comes in over lent memory, a piece of the stream or time: checked, obeyed as far as the reply room goes, and written back.
#![tactic(auto)]

ghost use Rattle.std.specs.Prelude.{◌≡◌, ◌+◌, ◌≤◌, length, drop};
ghost use Rattle.std.proofs.lemmas.List.Edits.{sets};
ghost use Rattle.directory.specs.Directory.{entries, totals_of};
ghost use Rattle.state.specs.State.{state};
ghost use Rattle.record.specs.Layout.{panel_at, record_size};
ghost use Rattle.record.specs.Reading.{port_of, panel_of, config_in};
ghost use Rattle.record.specs.Writing.{encode_of};
ghost use Rattle.rules.specs.World.{world};
ghost use Rattle.rules.specs.Calls.{bytes};
ghost use Rattle.outcome.specs.Outcome.{sent_by};
ghost use Rattle.calls.specs.Memory.{memory, store_fits, upload_refused, checked, Kept};
ghost use Rattle.feed.specs.Faults.{fault_number, number_of};
ghost use Rattle.feed.specs.Called.{called, feed_call, timed, time_call};
ghost use Rattle.feed.specs.Running.{Written, Ran, RanOn};

use canvas::length_for;
use directory::{Totals, survey};
use interpreter::{pass, step};
use outcome::Reply;
use record::{PANEL, RECORD, config_in, decode_port, used_in};
use record_write::encode_port;
use state::{Config, Phase, Port};
use storage::is_turned_away;
use whole_command::{obey_whole, whole_length};

// Why a call does nothing, or not all.
#[derive(Clone, Copy, Debug, PartialEq, Eq)]
pub enum Fault {
    BadFramebuffer,
    BadStore,
    BadRecord,
    BadDirectory,
    NoReplyRoom,
}

// Those of the queue have numbers of their own.
impl From<Fault> for u32 {
    ghost from_gives = { λ fault n. n ≡ fault_number fault };

    fn from(fault: Fault) -> u32 {
        match fault {
            Fault::BadFramebuffer => 1,
            Fault::BadStore => 2,
            Fault::BadRecord => 3,
            Fault::BadDirectory => 4,
            Fault::NoReplyRoom => 5,
        }
    }
}

// What C is answered: 0 where all is done.
pub fn number_of(done: Result<(), Fault>) -> u32
    ensures { result ≡ number_of done }
{
    match done {
        Ok(()) => 0,
        Err(fault) => u32::from(fault),
    }
}

// The store's bytes, at least and at most.
pub const STORE_LEAST: usize = 1024;

pub const STORE_MOST: usize = 32768;

// Free reply bytes that a byte needs.
pub const REPLY_ROOM: usize = 2;

#[derive(Clone, Copy)]
struct Progress {
    port: Port,
    done: Result<(), Fault>,
    consumed: usize,
    replied: usize,
}

// Writes a reply from number `at` on; the answer is the number behind it.
#[tactic(auto, unfolding(outcome::specs::Outcome::sent_by))]
fn send(replies: &mut [u8], at: usize, reply: Reply) -> usize
    requires { at + 2 ≤ length replies.old }
    ensures { (result ≡ at + length (sent_by reply)) × (replies.new ≡ sets replies.old at (sent_by reply)) }
{
    match reply {
        Reply::Silence => at,
        Reply::One(byte) => {
            replies[at] = byte;
            at + 1
        }
        Reply::Two(first, second) => {
            replies[at] = first;
            replies[at + 1] = second;
            at + 2
        }
    }
}

// Obeys a piece as far as the reply room goes.
fn run(
    framebuffer: &mut [u8],
    store: &mut [u8],
    panel: &mut [u8],
    config: Config,
    port: Port,
    piece: &[u8],
    replies: &mut [u8],
) -> Progress
    requires { Kept (world framebuffer.old store.old (state config port (panel_of panel.old))) × Written panel.old }
    ensures { Ran (world framebuffer.old store.old (state config port (panel_of panel.old))) (bytes piece.now) replies.old (world framebuffer.new store.new (state config result.port (panel_of panel.new))) replies.new (number_of result.done) result.consumed result.replied × Written panel.new }
{
    let mut p = port;
    let mut i = 0;
    let mut at = 0;
    // Counted by hand: a command that stands whole is several bytes at once.
    while i < piece.len() {
        if replies.len() - at < REPLY_ROOM {
            return Progress {
                port: p,
                done: Err(Fault::NoReplyRoom),
                consumed: i,
                replied: at,
            };
        }
        let rest = &piece[i..];
        if let Some(n) = whole_length(config.edition, p.line.phase, rest) {
            let o = obey_whole(framebuffer, store, panel, p, config, rest);
            p = o.port;
            i += n;
            at = send(replies, at, o.reply);
            continue;
        }
        let o = step(framebuffer, store, panel, p, config, piece[i]);
        p = o.port;
        i += 1;
        at = send(replies, at, o.reply);
    }
    Progress {
        port: p,
        done: Ok(()),
        consumed: i,
        replied: at,
    }
}

// The same on a state record, whose port is written back when all is done.
fn run_on(
    framebuffer: &mut [u8],
    store: &mut [u8],
    record: &mut [u8],
    config: Config,
    port: Port,
    piece: &[u8],
    replies: &mut [u8],
) -> Progress
    requires { Kept (world framebuffer.old store.old (state config port (panel_of (drop panel_at «record».old)))) × Written (drop panel_at «record».old) × (length «record».old ≡ record_size) × (config ≡ config_in «record».old) × (encode_of (state config port (panel_of (drop panel_at «record».old))) ≡ «record».old) }
    ensures { RanOn framebuffer.old store.old «record».old config port (bytes piece.now) replies.old framebuffer.new store.new «record».new result.port replies.new (number_of result.done) result.consumed result.replied }
{
    let ran = run(
        framebuffer,
        store,
        &mut record[PANEL..RECORD],
        config,
        port,
        piece,
        replies,
    );
    // What obeys no byte leaves the record as it is.
    if ran.consumed == 0 {
        return ran;
    }
    encode_port(ran.port, record);
    ran
}

pub fn store_fits(store: &[u8]) -> bool
    ensures { result ≡ store_fits store.now }
{
    (STORE_LEAST..=STORE_MOST).contains(&store.len())
}

// Whether an upload under way would now be refused.
fn is_blocked(store: &[u8], totals: Totals, edition: u8, phase: Phase) -> bool
    requires { totals ≡ totals_of (entries store.now) }
    ensures { result ≡ upload_refused edition store.now phase }
{
    let Phase::Upload {
        sort,
        number,
        size,
        ..
    } = phase
    else {
        return false;
    };
    is_turned_away(store, totals, edition, sort, number, size)
}

// The checks that a call makes first, in their order, with what was read of the record.
#[tactic(auto, unfolding(calls::specs::Memory::checked))]
fn check(
    framebuffer: &[u8],
    store: &[u8],
    state: &[u8],
    config: Config,
    phase: Phase,
) -> Result<(), Fault>
    requires { (config ≡ config_in state.now) × (phase ≡ (port_of state.now).line.phase) }
    ensures { number_of result ≡ checked (memory framebuffer.now store.now state.now) }
{
    if !record_check::is_recognised(state) {
        return Err(Fault::BadRecord);
    }
    if framebuffer.len() != length_for(config.height) {
        return Err(Fault::BadFramebuffer);
    }
    if !store_fits(store) {
        return Err(Fault::BadStore);
    }
    if !record_check::is_record(state) {
        return Err(Fault::BadRecord);
    }
    let totals = survey(store).ok_or(Fault::BadDirectory)?;
    if is_blocked(store, totals, config.edition, phase) {
        return Err(Fault::BadDirectory);
    }
    if usize::from(used_in(state)) != totals.used {
        return Err(Fault::BadRecord);
    }
    Ok(())
}

// A piece of the stream: memory that does not pass the checks is left as it is.
pub fn feed_piece(
    framebuffer: &mut [u8],
    store: &mut [u8],
    state: &mut [u8],
    piece: &[u8],
    replies: &mut [u8],
    consumed: &mut usize,
    replied: &mut usize,
) -> Result<(), Fault>
    ensures { called (number_of result) (memory framebuffer.new store.new state.new) replies.new consumed.new replied.new ≡ feed_call (memory framebuffer.old store.old state.old) piece.now replies.old }
{
    *consumed = 0;
    *replied = 0;
    let config = config_in(state);
    let port = decode_port(state);
    check(framebuffer, store, state, config, port.line.phase)?;
    let ran = run_on(framebuffer, store, state, config, port, piece, replies);
    *consumed = ran.consumed;
    *replied = ran.replied;
    ran.done
}

// Milliseconds that have passed, checked and answered as a piece of one byte is.
pub fn pass_time(
    framebuffer: &[u8],
    store: &[u8],
    state: &mut [u8],
    milliseconds: u32,
    replies: &mut [u8],
    replied: &mut usize,
) -> Result<(), Fault>
    ensures { timed (number_of result) (memory framebuffer.now store.now state.new) replies.new replied.new ≡ time_call (memory framebuffer.now store.now state.old) milliseconds replies.old }
{
    *replied = 0;
    let config = config_in(state);
    let port = decode_port(state);
    check(framebuffer, store, state, config, port.line.phase)?;
    if replies.len() < REPLY_ROOM {
        return Err(Fault::NoReplyRoom);
    }
    let o = pass(port, milliseconds);
    encode_port(o.port, state);
    *replied = send(replies, 0, o.reply);
    Ok(())
}
