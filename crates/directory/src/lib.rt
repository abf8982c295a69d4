// The directory of the store: the records in its first 256 bytes, read. Any bytes may stand there, and any number of them.
#![tactic(auto)]

ghost use Rattle.std.specs.Prelude.{◌≡◌, true, false, ◌&&◌, ◌+◌, ◌-◌, ◌*◌, ◌%◌, ◌≤◌, ◌<◌, min, leb, length, get_or, take, drop};
ghost use Rattle.std.specs.Iterator.{at_most};
ghost use Rattle.directory.specs.Records.{goes_on};
ghost use Rattle.directory.specs.Directory.{is_newer, length_of, sort_of, step_at, pair_at, entry_at, entries, totals_of, is_file, find_of, is_fair, zeros_from, survey_of};

use lent_bytes::byte_at;

// The directory's bytes; the file area lies behind them.
pub const DIRECTORY: usize = 256;

// The bytes that all records together may have.
pub const MAX_RECORDS: usize = 255;

// The sorts of files. A file is looked up by its sort and number, whichever kind of record it has. Sorts and kinds are bytes: `find` and
// `record_length` take any, as their definitions do, and an enum would ask more of callers.
pub const FONT: u8 = 1;

pub const BITMAP: u8 = 2;

// The kinds of records: of each sort one of the older edition and one of the newer, with more bytes for number and size.
pub const OLDER_FONT: u8 = 1;

pub const OLDER_BITMAP: u8 = 2;

pub const NEWER_FONT: u8 = 3;

pub const NEWER_BITMAP: u8 = 4;

pub const OLDER_LENGTH: usize = 4;

pub const NEWER_LENGTH: usize = 7;

// The highest number of a file.
pub const MAX_NUMBER: u16 = 1023;

// The font that is built in, and so in no directory.
pub const BUILT_IN_FONT: u16 = 1;

// The bytes of a table with a bit for each of the 1,024 numbers of each of the two sorts.
const SEEN: usize = 256;

#[derive(Clone, Copy)]
pub struct Entry {
    pub kind: u8,
    pub number: u16,
    pub size: usize,
}

// The byte behind the last record, and how many bytes the files take.
#[derive(Clone, Copy)]
pub struct Totals {
    pub end: usize,
    pub used: usize,
}

// The place of a record and of its file.
#[derive(Clone, Copy, Debug, PartialEq, Eq)]
pub struct Location {
    pub record: usize,
    pub start: usize,
    pub size: usize,
}

// The lent bytes from number `at` on; behind the end there are none.
pub fn rest(s: &[u8], at: usize) -> &[u8]
    ensures { result.now ≡ drop at s.now }
{
    &s[at.min(s.len())..]
}

// n of the lent bytes from number `at` on, or as many as there are.
pub fn part(s: &[u8], at: usize, n: usize) -> &[u8]
    ensures { result.now ≡ take n (drop at s.now) }
{
    let behind = rest(s, at);
    &behind[..n.min(behind.len())]
}

// The bytes of a record of this kind; 0 for none, and no Option: the length of none adds up like any other.
pub fn record_length(kind: u8) -> usize
    ensures { (result ≡ length_of kind) × (result ≤ 7) }
{
    match kind {
        OLDER_FONT | OLDER_BITMAP => OLDER_LENGTH,
        NEWER_FONT | NEWER_BITMAP => NEWER_LENGTH,
        _ => 0,
    }
}

// The sort of a kind; 0 for none, and no Option: a file is found by comparing sorts, as `is_file` says.
pub fn sort_of(kind: u8) -> u8
    ensures { result ≡ sort_of kind }
{
    match kind {
        OLDER_FONT | NEWER_FONT => FONT,
        OLDER_BITMAP | NEWER_BITMAP => BITMAP,
        _ => 0,
    }
}

// The bytes of the record at p; 0 where no whole one stands, which `next` answers with `None`.
fn step_at(store: &[u8], p: usize) -> usize
    ensures { result ≡ step_at store.now p }
{
    if DIRECTORY <= p {
        return 0;
    }
    let n = record_length(byte_at(store, p));
    if p + n <= DIRECTORY { n } else { 0 }
}

// A record of the older edition: a number of one byte, a size of two.
fn older_entry(store: &[u8], p: usize) -> Entry
    requires { (p + 4 ≤ length store.now) × (is_newer (get_or store.now p 0) ≡ false) }
    ensures { (result ≡ entry_at store.now p) × (result.size < 4294967296) }
{
    Entry {
        kind: store[p],
        number: u16::from(store[p + 1]),
        size: usize::from(u16::from_le_bytes([store[p + 2], store[p + 3]])),
    }
}

// A record of the newer edition: a number of two bytes, a size of four.
fn newer_entry(store: &[u8], p: usize) -> Entry
    requires { (p + 7 ≤ length store.now) × (is_newer (get_or store.now p 0) ≡ true) }
    ensures { (result ≡ entry_at store.now p) × (result.size < 4294967296) }
{
    Entry {
        kind: store[p],
        number: u16::from_le_bytes([store[p + 1], store[p + 2]]),
        size: u32::from_le_bytes([store[p + 3], store[p + 4], store[p + 5], store[p + 6]]) as usize,
    }
}

// The record of n bytes at p, all of it in the store.
fn whole_entry(store: &[u8], p: usize, n: usize) -> Entry
    requires { (n ≡ length_of (get_or store.now p 0)) × (4 ≤ n) × (p + n ≤ length store.now) }
    ensures { (result ≡ entry_at store.now p) × (result.size < 4294967296) }
{
    if n == NEWER_LENGTH {
        return newer_entry(store, p);
    }
    older_entry(store, p)
}

// The record of n bytes at p; the store may end before it does. In line with `next`: an entry then stays in registers, and a walk takes half of
// the instructions.
#[inline(always)]
fn entry_at(store: &[u8], p: usize, n: usize) -> Entry
    requires { (n ≡ length_of (get_or store.now p 0)) × (4 ≤ n) × (p + n ≤ 256) }
    ensures { (result ≡ entry_at store.now p) × (result.size < 4294967296) }
{
    if p + n <= store.len() {
        return whole_entry(store, p, n);
    }
    let bytes = [
        byte_at(store, p),
        byte_at(store, p + 1),
        byte_at(store, p + 2),
        byte_at(store, p + 3),
        byte_at(store, p + 4),
        byte_at(store, p + 5),
        byte_at(store, p + 6),
    ];
    whole_entry(&bytes, 0, n)
}

// A record from byte `at` up to byte `behind`.
#[derive(Clone, Copy)]
struct Record {
    at: usize,
    behind: usize,
    entry: Entry,
}

// A walk over the records, from byte `at` on.
#[derive(Drop)]
struct Records<'a> {
    store: &'a [u8],
    at: usize,
}

fn walk(store: &[u8]) -> Records<'_>
    ensures { (result.store ≡ store.entry) × (result.at ≡ 0) }
{
    Records { store, at: 0 }
}

impl Iterator for Records<'_> {
    type Item = Record;

    ghost next_gives = { goes_on };

    ghost remaining = { λ r. at_most (256 - r.at) };

    #[inline(always)]
    fn next(&mut self) -> Option<Record> {
        let at = self.at;
        let n = step_at(self.store, at);
        if n == 0 {
            return None;
        }
        let behind = at + n;
        self.at = behind;
        Some(Record {
            at,
            behind,
            entry: entry_at(self.store, at, n),
        })
    }
}

pub fn tally(store: &[u8]) -> Totals
    ensures { (result ≡ totals_of (entries store.now)) × (result.end ≤ 256) × (result.used ≤ 1099511627776) }
{
    let mut end = 0;
    let mut used = 0;
    for r in walk(store) {
        end = r.behind;
        used += r.entry.size;
    }
    Totals { end, used }
}

fn is_file(e: &Entry, sort: u8, number: u16) -> bool
    ensures { result ≡ is_file e.now sort number }
{
    e.number == number && sort_of(e.kind) == sort
}

// The first file of this sort and number.
pub fn find(store: &[u8], sort: u8, number: u16) -> Option<Location>
    ensures { result ≡ find_of store.now sort number }
{
    let mut start = DIRECTORY;
    for r in walk(store) {
        let size = r.entry.size;
        if is_file(&r.entry, sort, number) {
            return Some(Location {
                record: r.at,
                start,
                size,
            });
        }
        start += size;
    }
    None
}

fn is_fair(e: &Entry) -> bool
    ensures { result ≡ is_fair e.now }
{
    e.size != 0 && e.number <= MAX_NUMBER && !is_file(e, FONT, BUILT_IN_FONT)
}

// The number of the bit that stands for a file in the table: two bits a number, one for each sort.
fn slot(e: Entry) -> usize
    requires { e.number ≤ 1023 }
    ensures { (result ≡ 2 * e.number + sort_of e.kind % 2) × (result < 2048) }
{
    2 * usize::from(e.number) + usize::from(sort_of(e.kind) % 2)
}

// Whether every byte from number `from` to the directory's end is 0. No early way out, so that many are tested at once.
fn zeros_from(store: &[u8], from: usize) -> bool
    requires { 256 ≤ length store.now }
    ensures { result ≡ zeros_from from store.now }
{
    let mut all = 0;
    for p in from..DIRECTORY {
        all |= store[p];
    }
    all == 0
}

// Whether the directory may end so, its records by themselves being right.
fn closes(store: &[u8], t: Totals) -> bool
    requires { (256 ≤ length store.now) × (t.used ≤ 1099511627776) }
    ensures { result ≡ (leb t.end 255 && leb (256 + t.used) (length store.now) && zeros_from t.end store.now) }
{
    t.end <= MAX_RECORDS && DIRECTORY + t.used <= store.len() && zeros_from(store, t.end)
}

// The totals of a directory that keeps its rules. One walk over the records, in which each file is marked in a table of those seen.
pub fn survey(store: &[u8]) -> Option<Totals>
    ensures { result ≡ survey_of store.now }
{
    if store.len() < DIRECTORY {
        return None;
    }
    let mut seen = [0u8; SEEN];
    let mut end = 0;
    let mut used = 0;
    for r in walk(store) {
        if !is_fair(&r.entry) {
            return None;
        }
        let i = slot(r.entry);
        if (seen[i / 8] >> (7 - i % 8)) % 2 == 1 {
            return None;
        }
        seen[i / 8] |= 128u8 >> (i % 8);
        end = r.behind;
        used += r.entry.size;
    }
    let totals = Totals { end, used };
    closes(store, totals).then_some(totals)
}
