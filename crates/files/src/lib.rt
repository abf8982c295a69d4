// Files put into the store and taken out. Any bytes may be lent, and any number of them.
#![tactic(auto)]

ghost use Rattle.std.specs.Prelude.{◌≡◌, true, false, ◌+◌, ◌≤◌, length, drop, replicate};
ghost use Rattle.std.proofs.Math.Seq.{paste};
ghost use Rattle.files.specs.Moves.{closed};
ghost use Rattle.directory.specs.Directory.{is_newer, length_of};
ghost use Rattle.files.specs.Files.{unused_of, entry, record_bytes, appended, deletes, deleted, purged, stored_byte};

use directory::{DIRECTORY, Location, NEWER_LENGTH, OLDER_LENGTH, find, record_length, tally};
use lent_bytes::byte_at;

// The room of the file area that files of so many bytes together leave.
pub fn unused(store: &[u8], used: usize) -> usize
    ensures { result ≡ unused_of store.now used }
{
    let area = store.len().saturating_sub(DIRECTORY);
    area.saturating_sub(used)
}

// n bytes from byte `from` on, moved down to byte `to`. By their numbers, as a byte is read in `lent_bytes`: `copy_within` goes by options of references.
fn slide(s: &mut [u8], to: usize, from: usize, n: usize)
    requires { (to ≤ from) × (from + n ≤ length s.old) }
    ensures { s.new ≡ paste s.old to (drop from s.old) n }
{
    for i in 0..n {
        s[to + i] = s[from + i];
    }
}

// n zeros from byte `at` on.
fn zero(s: &mut [u8], at: usize, n: usize)
    requires { at + n ≤ length s.old }
    ensures { s.new ≡ paste s.old at (replicate n 0) n }
{
    s[at..at + n].fill(0);
}

// All of these bytes from byte `at` on. By their numbers: `copy_from_slice` asks for addresses, which have fewer bits on a processor of 32 bits.
fn put(s: &mut [u8], at: usize, bytes: &[u8])
    requires { at + length bytes.now ≤ length s.old }
    ensures { s.new ≡ paste s.old at bytes.now (length bytes.now) }
{
    for i in 0..bytes.len() {
        s[at + i] = bytes[i];
    }
}

// A record of the older edition: a number of one byte, a size of two.
fn write_older(store: &mut [u8], p: usize, kind: u8, number: u16, size: u32)
    requires { (p + 4 ≤ length store.old) × (is_newer kind ≡ false) }
    ensures { store.new ≡ paste store.old p (record_bytes (entry kind number size)) 4 }
{
    let [number, _] = number.to_le_bytes();
    let [low, high, ..] = size.to_le_bytes();
    put(store, p, &[kind, number, low, high]);
}

// A record of the newer edition: a number of two bytes, a size of four.
fn write_newer(store: &mut [u8], p: usize, kind: u8, number: u16, size: u32)
    requires { (p + 7 ≤ length store.old) × (is_newer kind ≡ true) }
    ensures { store.new ≡ paste store.old p (record_bytes (entry kind number size)) 7 }
{
    let [low, high] = number.to_le_bytes();
    let [first, second, third, fourth] = size.to_le_bytes();
    put(store, p, &[kind, low, high, first, second, third, fourth]);
}

// The n bytes of a record; none where its kind is not known.
fn write_record(store: &mut [u8], p: usize, n: usize, kind: u8, number: u16, size: u32)
    requires { (n ≡ length_of kind) × (p + n ≤ length store.old) }
    ensures { store.new ≡ paste store.old p (record_bytes (entry kind number size)) n }
{
    if n == NEWER_LENGTH {
        write_newer(store, p, kind, number, size);
    } else if n == OLDER_LENGTH {
        write_older(store, p, kind, number, size);
    }
}

// The record of a new file behind the last, if the directory has room for it.
pub fn append(store: &mut [u8], kind: u8, number: u16, size: u32)
    ensures { store.new ≡ appended store.old (entry kind number size) }
{
    let t = tally(store);
    let p = t.end;
    let n = record_length(kind);
    if DIRECTORY <= store.len() && p + n <= DIRECTORY {
        write_record(store, p, n, kind, number, size);
    }
}

// The n bytes of the record at byte `at` of a directory that ends at `end`, and the bytes from `start` to `next` of files that end at `top`, closed over.
fn close(store: &mut [u8], at: usize, n: usize, end: usize, start: usize, next: usize, top: usize)
    requires { (at + n ≤ end) × (end ≤ start) × (start ≤ next) × (next ≤ top) × (top ≤ length store.old) }
    ensures { store.new ≡ closed store.old at n end start next top }
{
    slide(store, start, next, top - next);
    let from = at + n;
    slide(store, at, from, end - from);
    zero(store, end - n, n);
}

// The record and the file of this sort and number taken out, later ones moved to close the gap; the answer is whether there was one.
pub fn delete(store: &mut [u8], sort: u8, number: u16) -> bool
    ensures { (result ≡ deletes store.old sort number) × (store.new ≡ deleted store.old sort number) }
{
    let t = tally(store);
    let top = DIRECTORY + t.used;
    if store.len() < top {
        return false;
    }
    let found = find(store, sort, number);
    let Some(
        Location {
            record,
            start,
            size,
        },
    ) = found
    else {
        return false;
    };
    let n = record_length(byte_at(store, record));
    close(store, record, n, t.end, start, start + size, top);
    true
}

// No record left; the file area stays.
pub fn purge(store: &mut [u8])
    ensures { store.new ≡ purged store.old }
{
    let n = DIRECTORY.min(store.len());
    zero(store, 0, n);
}

// Byte number k behind files of so many bytes; beyond the store nothing.
pub fn store_byte(store: &mut [u8], used: u16, k: u16, byte: u8)
    ensures { store.new ≡ stored_byte store.old used k byte }
{
    let at = DIRECTORY + usize::from(used) + usize::from(k);
    if at < store.len() {
        store[at] = byte;
    }
}
