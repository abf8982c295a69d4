// Obeys the bytes of the standard input on a fresh display, and lists what they leave: black runs of each row, refusals, replies.
// The display has 128 rows where the first argument is 128, and else 64.
#![tactic(auto)]

ghost use Rattle.std.specs.Prelude.{◌≤◌, length};

use arrayvec::ArrayVec;
use canvas::{LOW_HEIGHT, LOW_LENGTH, TALL_HEIGHT, TALL_LENGTH, WIDTH, is_black};
use display::{display_feed, display_start};
use feed::STORE_MOST;
use state::{OLDER, Refusals};
use std::io;
use std::io::Read;
use std::rt::Env;

// Bytes of a piece, and room for all that they can send.
const PIECE: usize = 4096;

const ROOM: usize = 8192;

// Replies that are listed at most.
const SHOWN: usize = 4096;

// The first column from x on that is black, or the first that is not; the width where there is none.
fn next_column(framebuffer: &[u8], black: bool, x: u16, y: u16) -> u16
    requires { x ≤ 240 }
    ensures { (x ≤ result) × (result ≤ 240) }
{
    (x..WIDTH)
        .find(|&column| is_black(framebuffer, column, y) == black)
        .unwrap_or(WIDTH)
}

fn show_row(rt: &impl Print, framebuffer: &[u8], y: u16) -> io::Result<()> {
    let mut x = next_column(framebuffer, true, 0, y);
    if x == WIDTH {
        return Ok(());
    }
    print!(rt; "{y}:")?;
    // From run to run, and not from column to column.
    while x < WIDTH {
        let end = next_column(framebuffer, false, x + 1, y);
        let last = end - 1;
        print!(rt; " {x}-{last}")?;
        x = next_column(framebuffer, true, end, y);
    }
    rt.write_all(b"\n")
}

fn show_framebuffer(rt: &impl Print, framebuffer: &[u8], height: u8) -> io::Result<()> {
    println!(rt; "glass 240 {height}")?;
    for y in 0..u16::from(height) {
        show_row(rt, framebuffer, y)?;
    }
    Ok(())
}

fn show_refusals(rt: &impl Print, state: &[u8]) -> io::Result<()> {
    let Refusals { count, last } = record::decode_port(state).refusals;
    println!(rt; "refused {count} last {last}")
}

fn show_replies(rt: &impl Print, shown: &[u8]) -> io::Result<()> {
    rt.write_all(b"replies")?;
    for byte in shown {
        print!(rt; " {byte}")?;
    }
    rt.write_all(b"\n")
}

// Feeds a piece; its replies are put behind those that are listed, as far as there is room.
fn feed(
    framebuffer: &mut [u8],
    store: &mut [u8],
    state: &mut [u8],
    piece: &[u8],
    shown: &mut ArrayVec<u8, SHOWN>,
) {
    let mut replies = [0u8; ROOM];
    let mut consumed = 0;
    let mut replied = 0;
    display_feed(
        framebuffer,
        store,
        state,
        piece,
        &mut replies,
        &mut consumed,
        &mut replied,
    );
    if replied <= ROOM {
        for byte in &replies[..replied] {
            if shown.is_full() {
                return;
            }
            shown.push(*byte);
        }
    }
}

// Reads until the piece is full or the input ends, or cannot be read; the answer is the number of bytes that were read. Counted by hand, since a
// read is of any length.
fn read_full(input: &mut impl Read, piece: &mut [u8]) -> usize
    ensures { result ≤ length piece.new }
{
    let mut done = 0;
    while done < piece.len() {
        let Ok(n) = input.read(&mut piece[done..]) else {
            break;
        };
        if n == 0 {
            break;
        }
        done += n;
    }
    done
}

// A proved loop has to end, and nothing says that the input does: so it counts to a number that no run reaches.
fn obey_all(
    input: &mut impl Read,
    framebuffer: &mut [u8],
    store: &mut [u8],
    state: &mut [u8],
    shown: &mut ArrayVec<u8, SHOWN>,
) {
    let mut piece = [0u8; PIECE];
    for _ in 0..u64::MAX {
        let n = read_full(input, &mut piece);
        if n == 0 {
            break;
        }
        feed(framebuffer, store, state, &piece[..n], shown);
    }
}

// Whether the first argument is 128, and not one byte more.
fn is_tall(rt: &impl Env) -> bool {
    let mut word = [0u8; 3];
    let Ok(n) = rt.arg(1, &mut word) else {
        return false;
    };
    n == 3 && word == *b"128"
}

fn list(rt: &(impl Input + Print), framebuffer: &mut [u8], height: u8) -> io::Result<()> {
    let mut store = [0u8; STORE_MOST];
    let mut state = [0u8; record::RECORD];
    let mut queue = [0u8; queue::RECORD];
    display_start(
        u32::from(height),
        u32::from(OLDER),
        framebuffer,
        &mut store,
        &mut state,
        &mut queue,
    );
    let mut shown = ArrayVec::new();
    let mut input = rt.reader();
    obey_all(&mut input, framebuffer, &mut store, &mut state, &mut shown);
    show_framebuffer(rt, framebuffer, height)?;
    show_refusals(rt, &state)?;
    show_replies(rt, &shown)
}

fn main(rt: HostRuntime) -> io::Result<()> {
    if is_tall(&rt) {
        let mut framebuffer = [0u8; TALL_LENGTH];
        list(&rt, &mut framebuffer, TALL_HEIGHT)
    } else {
        let mut framebuffer = [0u8; LOW_LENGTH];
        list(&rt, &mut framebuffer, LOW_HEIGHT)
    }
}
