// A queue of bytes: a ring buffer with a held count, a watermark and a count of lost bytes, and its record.
#![tactic(auto)]

ghost use Rattle.std.specs.Prelude.{◌≡◌, ◌<◌, ◌≤◌, Some};
ghost use Rattle.queue.specs.Numbers.{signal_number, error_number};
ghost use Rattle.queue.specs.Watermarks.{crossing, high_water, low_water, while_on};
ghost use Rattle.queue.specs.Queue.{stored, counted, oldest, advanced};
ghost use Rattle.queue.specs.Record.{at, decode_of, encode_of, sound_record, Passed, arrived_as, taken_as, arrive_in, take_in};

// Bytes that the ring holds at most.
pub const SIZE: usize = 80;

// The record: the ring from 0 on, then a byte for each of these.
pub const PLACE: usize = 80;

pub const HELD: usize = 81;

pub const MARK: usize = 82;

pub const LOST: usize = 83;

pub const LOST_HIGH: usize = 84;

pub const RECORD: usize = 85;

// What the sender is told.
#[derive(Clone, Copy, Debug, PartialEq, Eq)]
pub enum Signal {
    NearlyFull,
    NearlyEmpty,
}

impl From<Signal> for u8 {
    ghost from_gives = { λ signal n. n ≡ signal_number (Some signal) };

    fn from(signal: Signal) -> u8 {
        match signal {
            Signal::NearlyFull => 254,
            Signal::NearlyEmpty => 255,
        }
    }
}

// Why no byte was accepted, or none handed out.
#[derive(Clone, Copy, Debug, PartialEq, Eq)]
pub enum QueueError {
    Unsound,
    Empty,
    Full,
}

impl From<QueueError> for u8 {
    ghost from_gives = { λ error n. n ≡ error_number error };

    fn from(error: QueueError) -> u8 {
        match error {
            QueueError::Unsound => 3,
            QueueError::Empty => 6,
            QueueError::Full => 7,
        }
    }
}

// Flow control: bytes free and bytes held at which a signal goes out. No Option: the thresholds stay while it is off.
#[derive(Clone, Copy)]
pub struct Flow {
    pub on: bool,
    pub full: u8,
    pub empty: u8,
}

// A byte handed out, and the signal that its leaving sends.
#[derive(Clone, Copy)]
pub struct TakenByte {
    pub byte: u8,
    pub signal: Option<Signal>,
}

// What a change of the held count sends, and the mark after it.
#[derive(Clone, Copy)]
struct Crossing {
    signal: Option<Signal>,
    mark: bool,
}

// After an accepted byte.
#[tactic(auto, unfolding(crate::specs::Watermarks::high_water))]
fn high_water(full: u8, mark: bool, held: u8) -> Crossing
    requires { held ≤ 80 }
    ensures { crossing result ≡ high_water full mark held }
{
    if !mark && SIZE - usize::from(held) <= usize::from(full) {
        return Crossing {
            signal: Some(Signal::NearlyFull),
            mark: true,
        };
    }
    Crossing { signal: None, mark }
}

// After a byte was taken.
#[tactic(auto, unfolding(crate::specs::Watermarks::low_water))]
fn low_water(empty: u8, mark: bool, held: u8) -> Crossing
    ensures { crossing result ≡ low_water empty mark held }
{
    if mark && held <= empty {
        return Crossing {
            signal: Some(Signal::NearlyEmpty),
            mark: false,
        };
    }
    Crossing { signal: None, mark }
}

// With flow control off the mark goes down, and nothing is sent.
#[tactic(auto, unfolding(crate::specs::Watermarks::while_on))]
fn while_on(flow: Flow, w: Crossing) -> Crossing
    ensures { crossing result ≡ while_on flow (crossing w) }
{
    Crossing {
        signal: if flow.on { w.signal } else { None },
        mark: flow.on && w.mark,
    }
}

// Whether a record is that of a sound queue, its mark written as 0 or 1.
#[tactic(auto, unfolding(crate::specs::Record::sound_record))]
fn sound(r: &[u8]) -> bool
    ensures { result ≡ sound_record r.now }
{
    r.len() == RECORD
        && usize::from(r[PLACE]) < SIZE
        && usize::from(r[HELD]) <= SIZE
        && r[MARK] <= 1
}

// That the record passed this check is asked of each function below that changes it. A type around the lent bytes would say it once, and no more plainly: each of them would lend them again.

// The byte written behind the newest one.
fn store(r: &mut [u8], byte: u8, mark: bool)
    requires { Passed r.old × (at r.old 81 < 80) }
    ensures { r.new ≡ encode_of (stored (decode_of r.old) byte mark) }
{
    let held = r[HELD];
    let at = (usize::from(r[PLACE]) + usize::from(held)) % SIZE;
    r[at] = byte;
    r[HELD] = held + 1;
    r[MARK] = u8::from(mark);
}

// A dropped byte: only the lost count changes, and rolls over.
fn count_lost(r: &mut [u8])
    requires { Passed r.old }
    ensures { r.new ≡ encode_of (counted (decode_of r.old)) }
{
    let lost = u16::from_le_bytes([r[LOST], r[LOST_HIGH]]).wrapping_add(1);
    let [low, high] = lost.to_le_bytes();
    r[LOST] = low;
    r[LOST_HIGH] = high;
}

// The queue without its oldest byte, which stays in the ring.
fn advance(r: &mut [u8], mark: bool) -> u8
    requires { Passed r.old × (0 < at r.old 81) }
    ensures { (result ≡ oldest (decode_of r.old)) × (r.new ≡ encode_of (advanced (decode_of r.old) mark)) }
{
    let place = usize::from(r[PLACE]);
    let held = r[HELD];
    let byte = r[place];
    r[PLACE] = ((place + 1) % SIZE) as u8;
    r[HELD] = held - 1;
    r[MARK] = u8::from(mark);
    byte
}

// A byte comes in. A queue with 80 bytes held is full. A record that is not sound stays as it is.
#[tactic(auto, using(crate::proofs::Ways::fine))]
pub fn arrive(r: &mut [u8], flow: Flow, byte: u8) -> Result<Option<Signal>, QueueError>
    ensures { arrived_as result r.new ≡ arrive_in r.old flow byte }
{
    if !sound(r) {
        return Err(QueueError::Unsound);
    }
    let held = r[HELD];
    if usize::from(held) < SIZE {
        let w = while_on(flow, high_water(flow.full, r[MARK] == 1, held + 1));
        store(r, byte, w.mark);
        return Ok(w.signal);
    }
    count_lost(r);
    Err(QueueError::Full)
}

// A byte goes out. A record that is not sound stays as it is.
#[tactic(auto, using(crate::proofs::Ways::fine))]
pub fn take(r: &mut [u8], flow: Flow) -> Result<TakenByte, QueueError>
    ensures { taken_as result r.new ≡ take_in r.old flow }
{
    if !sound(r) {
        return Err(QueueError::Unsound);
    }
    let held = r[HELD];
    if held == 0 {
        return Err(QueueError::Empty);
    }
    let w = while_on(flow, low_water(flow.empty, r[MARK] == 1, held - 1));
    let byte = advance(r, w.mark);
    Ok(TakenByte {
        byte,
        signal: w.signal,
    })
}
