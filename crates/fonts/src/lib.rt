// Fonts and bitmaps as they lie in a file: checked whole, and read. Any bytes may be lent, and any number of them.
#![tactic(auto)]

ghost use Rattle.std.specs.Prelude.{◌≡◌, ◌≤◌, ◌<◌};
ghost use Rattle.refusals.specs.declared.Refusal.TheVariants.{MalformedFile};
ghost use Rattle.fonts.specs.Checks.{check_of, between};
ghost use Rattle.fonts.specs.Bitmaps.{packed_bytes, bitmap_width, bitmap_height, is_bitmap};
ghost use Rattle.fonts.specs.Fonts.{nominal_width, height_of, first_of, last_of, offset_at, width_at, entry_of, is_entry, are_entries, is_font};

use lent_bytes::byte_at;
use refusals::Refusal;

// A font: nominal width, height, first and last character, then an entry for each character.
pub const HEADER: usize = 4;

// An entry: offset high, offset low, width.
pub const ENTRY: usize = 3;

pub const MAX_WIDTH: u8 = 240;

// A bitmap: width, height, then its rows.
pub const BITMAP_HEADER: usize = 2;

// The error of a file that is no font, or no bitmap.
#[derive(Clone, Copy, Debug, PartialEq, Eq)]
pub struct Malformed;

impl From<Malformed> for Refusal {
    ghost from_gives = { λ _ refusal. refusal ≡ MalformedFile };

    fn from(_error: Malformed) -> Refusal {
        Refusal::MalformedFile
    }
}

// Where the rows of a character are in the file, and how wide it is.
#[derive(Clone, Copy)]
pub struct Entry {
    pub offset: usize,
    pub width: u8,
}

// The bytes of w by h bits, packed row after row without gaps.
pub fn packed_bytes(w: u8, h: u8) -> usize
    ensures { (result ≡ packed_bytes w h) × (result ≤ 8192) }
{
    (usize::from(w) * usize::from(h) + 7) / 8
}

pub fn nominal_width(file: &[u8]) -> u8
    ensures { result ≡ nominal_width file.now }
{
    byte_at(file, 0)
}

pub fn height(file: &[u8]) -> u8
    ensures { result ≡ height_of file.now }
{
    byte_at(file, 1)
}

pub fn first(file: &[u8]) -> u8
    ensures { result ≡ first_of file.now }
{
    byte_at(file, 2)
}

pub fn last(file: &[u8]) -> u8
    ensures { result ≡ last_of file.now }
{
    byte_at(file, 3)
}

// Of entry number k.
fn offset_at(file: &[u8], k: usize) -> usize
    requires { k < 256 }
    ensures { (result ≡ offset_at file.now k) × (result < 65536) }
{
    let at = HEADER + ENTRY * k;
    usize::from(u16::from_be_bytes([byte_at(file, at), byte_at(file, at + 1)]))
}

fn width_at(file: &[u8], k: usize) -> u8
    requires { k < 256 }
    ensures { result ≡ width_at file.now k }
{
    byte_at(file, HEADER + ENTRY * k + 2)
}

pub fn entry_at(file: &[u8], k: u8) -> Entry
    ensures { result ≡ entry_of file.now k }
{
    let n = usize::from(k);
    Entry {
        offset: offset_at(file, n),
        width: width_at(file, n),
    }
}

// Whether n is from 1 to most.
fn is_between(n: u8, most: u8) -> bool
    ensures { result ≡ between 1 most n }
{
    n != 0 && n <= most
}

// Whether entry number k has a fair width and its rows are in the file.
fn is_entry(file: &[u8], k: usize) -> bool
    requires { k < 256 }
    ensures { result ≡ is_entry file.now k }
{
    let width = width_at(file, k);
    is_between(width, MAX_WIDTH)
        && offset_at(file, k) + packed_bytes(width, height(file)) <= file.len()
}

// The first n entries.
fn are_entries(file: &[u8], n: usize) -> bool
    requires { n ≤ 256 }
    ensures { result ≡ are_entries n 0 file.now }
{
    for k in 0..n {
        if !is_entry(file, k) {
            return false;
        }
    }
    true
}

// One way out after the other, since the count of characters is one only where their order is right.
fn is_font(file: &[u8], max_height: u8) -> bool
    ensures { result ≡ is_font max_height file.now }
{
    if file.len() < HEADER {
        return false;
    }
    if !is_between(nominal_width(file), MAX_WIDTH) {
        return false;
    }
    if !is_between(height(file), max_height) {
        return false;
    }
    let from = first(file);
    let to = last(file);
    if to < from {
        return false;
    }
    let n = usize::from(to - from) + 1;
    HEADER + ENTRY * n <= file.len() && are_entries(file, n)
}

// Whether a file is a font for a framebuffer of max_height rows.
pub fn check_font(file: &[u8], max_height: u8) -> Result<(), Malformed>
    ensures { result ≡ check_of (is_font max_height file.now) }
{
    if is_font(file, max_height) {
        Ok(())
    } else {
        Err(Malformed)
    }
}

pub fn bitmap_width(file: &[u8]) -> u8
    ensures { result ≡ bitmap_width file.now }
{
    byte_at(file, 0)
}

pub fn bitmap_height(file: &[u8]) -> u8
    ensures { result ≡ bitmap_height file.now }
{
    byte_at(file, 1)
}

fn is_bitmap(file: &[u8]) -> bool
    ensures { result ≡ is_bitmap file.now }
{
    let w = bitmap_width(file);
    let h = bitmap_height(file);
    w != 0 && h != 0 && file.len() == BITMAP_HEADER + packed_bytes(w, h)
}

pub fn check_bitmap(file: &[u8]) -> Result<(), Malformed>
    ensures { result ≡ check_of (is_bitmap file.now) }
{
    if is_bitmap(file) {
        Ok(())
    } else {
        Err(Malformed)
    }
}
