// Small cases of the store, of fonts and bitmaps in it, and of the queue, printed as lines of text.
#![tactic(auto)]

ghost use Rattle.std.specs.Prelude.{◌≡◌, length};

use directory::{
    BITMAP, FONT, Location, NEWER_BITMAP, NEWER_FONT, OLDER_BITMAP, OLDER_FONT, find, survey, tally,
};
use files::{append, delete, purge, store_byte, unused};
use fonts::{Malformed, check_bitmap, check_font};
use lent_bytes::byte_at;
use opened_font::{Glyph, glyph_of};
use queue::{Flow, HELD, LOST, LOST_HIGH, PLACE, TakenByte, arrive, take};
use std::io;

const STORE: usize = 1024;

// Bytes `from` up to, and not with, `to`.
fn show_bytes(rt: &impl Print, name: &str, s: &[u8], from: usize, to: usize) -> io::Result<()> {
    print!(rt; "{name}")?;
    for p in from..to {
        print!(rt; " {}", byte_at(s, p))?;
    }
    println!(rt; "")
}

// The directory.
fn show_valid(rt: &impl Print, name: &str, s: &[u8]) -> io::Result<()> {
    let validity = if survey(s).is_some() {
        "valid"
    } else {
        "invalid"
    };
    println!(rt; "{name}: {validity}")
}

fn show_tally(rt: &impl Print, name: &str, s: &[u8]) -> io::Result<()> {
    let t = tally(s);
    println!(rt; "{name}: end {}, used {}", t.end, t.used)
}

// The room that the files leave.
fn room(s: &[u8]) -> usize {
    let t = tally(s);
    unused(s, t.used)
}

// Byte number k behind the last file.
fn put_behind(s: &mut [u8], k: u16, byte: u8) {
    let t = tally(s);
    store_byte(s, (t.used % 65536) as u16, k, byte);
}

fn lengths(rt: &impl Print) -> io::Result<()> {
    let s = [0u8; STORE];
    show_valid(rt, "1024 zeros", &s)?;
    let least = 256;
    show_valid(rt, "256 zeros", &s[..least])?;
    let short = 255;
    show_valid(rt, "255 zeros", &s[..short])?;
    let none = 0;
    show_valid(rt, "no bytes", &s[..none])?;
    println!(rt; "unused of 1024 zeros: {}", room(&s))?;
    println!(rt; "unused of 255 zeros: {}", room(&s[..short]))
}

fn ends(rt: &impl Print) -> io::Result<()> {
    let mut s = [0u8; STORE];
    append(&mut s, OLDER_BITMAP, 5, 10);
    show_tally(rt, "bitmap 5 of 10 bytes", &s)?;
    show_valid(rt, "bitmap 5 of 10 bytes", &s)?;
    s[8] = OLDER_BITMAP;
    s[9] = 6;
    s[10] = 10;
    show_tally(rt, "kind 0, then a record", &s)?;
    show_valid(rt, "kind 0, then a record", &s)
}

fn garbage(rt: &impl Print) -> io::Result<()> {
    let mut s = [0u8; STORE];
    append(&mut s, OLDER_FONT, 2, 10);
    s[255] = 1;
    show_tally(rt, "byte 255 is 1", &s)?;
    show_valid(rt, "byte 255 is 1", &s)?;
    s[255] = 0;
    s[256] = 1;
    show_valid(rt, "byte 256 is 1", &s)
}

fn unknown_kind(rt: &impl Print) -> io::Result<()> {
    let mut s = [0u8; STORE];
    append(&mut s, OLDER_BITMAP, 5, 10);
    append(&mut s, 5, 6, 10);
    show_valid(rt, "kind 5 is not appended", &s)?;
    s[4] = 5;
    s[5] = 6;
    s[6] = 10;
    show_tally(rt, "a record of kind 5", &s)?;
    show_valid(rt, "a record of kind 5", &s)
}

// Bitmaps 1 to n, of a byte each.
fn append_all(s: &mut [u8], n: u16) {
    for k in 1..=n {
        append(s, OLDER_BITMAP, k, 1);
    }
}

fn counts(rt: &impl Print) -> io::Result<()> {
    let mut s = [0u8; STORE];
    append_all(&mut s, 63);
    show_tally(rt, "63 bitmaps", &s)?;
    show_valid(rt, "63 bitmaps", &s)?;
    append(&mut s, NEWER_BITMAP, 64, 1);
    show_tally(rt, "and one of 7 bytes", &s)?;
    append(&mut s, OLDER_BITMAP, 64, 1);
    show_tally(rt, "64 bitmaps", &s)?;
    show_valid(rt, "64 bitmaps", &s)?;
    append(&mut s, OLDER_BITMAP, 65, 1);
    show_tally(rt, "a record that would end behind byte 256", &s)?;
    show_bytes(rt, "bytes 252 to 259:", &s, 252, 260)
}

fn record_bytes(rt: &impl Print) -> io::Result<()> {
    let mut s = [0u8; STORE];
    append_all(&mut s, 62);
    append(&mut s, NEWER_BITMAP, 63, 1);
    show_tally(rt, "62 bitmaps and one of 7 bytes", &s)?;
    show_valid(rt, "62 bitmaps and one of 7 bytes", &s)
}

fn numbers(rt: &impl Print) -> io::Result<()> {
    let mut s = [0u8; STORE];
    append(&mut s, OLDER_BITMAP, 1, 10);
    show_valid(rt, "bitmap 1", &s)?;
    append(&mut s, OLDER_FONT, 2, 10);
    append(&mut s, OLDER_BITMAP, 2, 10);
    show_valid(rt, "font 2 and bitmap 2", &s)?;
    append(&mut s, OLDER_FONT, 2, 20);
    show_valid(rt, "font 2 twice", &s)?;
    let mut t = [0u8; STORE];
    append(&mut t, OLDER_FONT, 1, 10);
    show_valid(rt, "font 1", &t)
}

fn sizes(rt: &impl Print) -> io::Result<()> {
    let mut s = [0u8; STORE];
    append(&mut s, OLDER_BITMAP, 5, 768);
    show_valid(rt, "768 bytes of 768", &s)?;
    let mut t = [0u8; STORE];
    append(&mut t, OLDER_BITMAP, 5, 400);
    append(&mut t, OLDER_BITMAP, 6, 368);
    show_valid(rt, "400 and 368 bytes of 768", &t)?;
    println!(rt; "unused: {}", room(&t))?;
    append(&mut t, OLDER_BITMAP, 7, 1);
    show_valid(rt, "and one more", &t)?;
    println!(rt; "unused: {}", room(&t))?;
    let mut u = [0u8; STORE];
    append(&mut u, OLDER_BITMAP, 5, 0);
    show_valid(rt, "size 0", &u)
}

fn newer_numbers(rt: &impl Print) -> io::Result<()> {
    let mut s = [0u8; STORE];
    append(&mut s, NEWER_BITMAP, 1023, 10);
    show_valid(rt, "bitmap 1023", &s)?;
    append(&mut s, NEWER_BITMAP, 1024, 10);
    show_valid(rt, "bitmap 1024", &s)?;
    let mut t = [0u8; STORE];
    append(&mut t, NEWER_FONT, 1, 10);
    show_valid(rt, "font 1 of the newer edition", &t)
}

fn newer_sizes(rt: &impl Print) -> io::Result<()> {
    let mut s = [0u8; STORE];
    append(&mut s, NEWER_BITMAP, 5, 70000);
    show_bytes(rt, "bitmap 5 of 70000 bytes:", &s, 0, 8)?;
    show_tally(rt, "bitmap 5 of 70000 bytes", &s)?;
    show_valid(rt, "bitmap 5 of 70000 bytes", &s)?;
    println!(rt; "unused: {}", room(&s))
}

fn show_found(rt: &impl Print, name: &str, s: &[u8], sort: u8, number: u16) -> io::Result<()> {
    match find(s, sort, number) {
        Some(
            Location {
                record,
                start,
                size,
            },
        ) => println!(rt; "{name}: record {record}, start {start}, size {size}"),
        None => println!(rt; "{name}: nothing"),
    }
}

fn finds(rt: &impl Print) -> io::Result<()> {
    let mut s = [0u8; STORE];
    append(&mut s, OLDER_FONT, 2, 300);
    append(&mut s, OLDER_BITMAP, 5, 10);
    append(&mut s, OLDER_BITMAP, 2, 458);
    show_bytes(rt, "directory:", &s, 0, 16)?;
    show_found(rt, "font 2", &s, FONT, 2)?;
    show_found(rt, "bitmap 5", &s, BITMAP, 5)?;
    show_found(rt, "bitmap 2", &s, BITMAP, 2)?;
    show_found(rt, "font 5", &s, FONT, 5)?;
    show_found(rt, "bitmap 0", &s, BITMAP, 0)
}

fn editions(rt: &impl Print) -> io::Result<()> {
    let mut s = [0u8; STORE];
    append(&mut s, NEWER_FONT, 1023, 300);
    append(&mut s, OLDER_FONT, 2, 5);
    append(&mut s, NEWER_BITMAP, 1023, 10);
    show_bytes(rt, "directory:", &s, 0, 20)?;
    show_tally(rt, "records of both editions", &s)?;
    show_valid(rt, "records of both editions", &s)?;
    show_found(rt, "font 1023", &s, FONT, 1023)?;
    show_found(rt, "font 2", &s, FONT, 2)?;
    show_found(rt, "bitmap 1023", &s, BITMAP, 1023)?;
    show_found(rt, "bitmap 2", &s, BITMAP, 2)?;
    append(&mut s, NEWER_FONT, 2, 5);
    show_valid(rt, "font 2 in both editions", &s)
}

// Files.
fn show_store(rt: &impl Print, s: &[u8]) -> io::Result<()> {
    show_bytes(rt, "directory:", s, 0, 16)?;
    show_bytes(rt, "area:", s, 256, 268)?;
    println!(rt; "unused: {}", room(s))
}

// Each byte goes behind the last file, and the record comes after them.
fn put_bitmap_1(s: &mut [u8]) {
    put_behind(s, 0, 11);
    put_behind(s, 1, 12);
    append(s, OLDER_BITMAP, 1, 2);
}

fn put_font_2(s: &mut [u8]) {
    put_behind(s, 0, 21);
    put_behind(s, 1, 22);
    put_behind(s, 2, 23);
    append(s, OLDER_FONT, 2, 3);
}

fn put_bitmap_3(s: &mut [u8]) {
    put_behind(s, 0, 31);
    put_behind(s, 1, 32);
    put_behind(s, 2, 33);
    put_behind(s, 3, 34);
    append(s, OLDER_BITMAP, 3, 4);
}

fn put_font_300(s: &mut [u8]) {
    put_behind(s, 0, 41);
    put_behind(s, 1, 42);
    put_behind(s, 2, 43);
    append(s, NEWER_FONT, 300, 3);
}

fn show_delete(rt: &impl Print, s: &mut [u8], sort: u8, number: u16) -> io::Result<()> {
    let answer = if delete(s, sort, number) {
        "deleted"
    } else {
        "no such file"
    };
    println!(rt; "{answer}")
}

fn deletes(rt: &impl Print) -> io::Result<()> {
    let mut s = [0u8; STORE];
    put_bitmap_1(&mut s);
    put_font_2(&mut s);
    put_bitmap_3(&mut s);
    println!(rt; "three files")?;
    show_store(rt, &s)?;
    print!(rt; "font 2: ")?;
    show_delete(rt, &mut s, FONT, 2)?;
    show_store(rt, &s)?;
    print!(rt; "font 2: ")?;
    show_delete(rt, &mut s, FONT, 2)?;
    show_store(rt, &s)?;
    println!(rt; "byte 99 behind them")?;
    put_behind(&mut s, 0, 99);
    show_store(rt, &s)?;
    println!(rt; "byte 98 at 761, byte 97 at 762")?;
    put_behind(&mut s, 761, 98);
    put_behind(&mut s, 762, 97);
    show_bytes(rt, "bytes 1022 and 1023:", &s, 1022, 1024)?;
    println!(rt; "purged")?;
    purge(&mut s);
    show_store(rt, &s)
}

fn newer_deletes(rt: &impl Print) -> io::Result<()> {
    let mut s = [0u8; STORE];
    put_bitmap_1(&mut s);
    put_font_300(&mut s);
    put_bitmap_3(&mut s);
    println!(rt; "a file of the newer edition among others")?;
    show_store(rt, &s)?;
    print!(rt; "font 300: ")?;
    show_delete(rt, &mut s, FONT, 300)?;
    show_store(rt, &s)
}

// Fonts and bitmaps.
fn show_check(rt: &impl Print, name: &str, checked: Result<(), Malformed>) -> io::Result<()> {
    match checked {
        Ok(()) => println!(rt; "{name}: good"),
        Err(Malformed) => println!(rt; "{name}: malformed"),
    }
}

// Characters 65 and 66, 5 high: 3 wide at 10 and 4 wide at 12.
fn small_font() -> [u8; 15]
    ensures { 15 ≡ length result }
{
    [
        3, 5, 65, 66, 0, 10, 3, 0, 12, 4, 0x57, 0xda, 0x74, 0x63, 0x1f,
    ]
}

fn good_fonts(rt: &impl Print) -> io::Result<()> {
    let mut f = small_font();
    show_check(rt, "a font for 64 rows", check_font(&f, 64))?;
    show_check(rt, "for 5 rows", check_font(&f, 5))?;
    show_check(rt, "for 4 rows", check_font(&f, 4))?;
    f[0] = 240;
    show_check(rt, "nominal width 240", check_font(&f, 64))
}

fn glyph_places(rt: &impl Print) -> io::Result<()> {
    let mut f = small_font();
    f[5] = 0;
    show_check(rt, "a glyph at 0", check_font(&f, 64))?;
    f[5] = 13;
    show_check(rt, "a glyph of 2 bytes at 13", check_font(&f, 64))?;
    f[5] = 14;
    show_check(rt, "a glyph of 2 bytes at 14", check_font(&f, 64))
}

// The first n bytes of a font.
fn show_cut(rt: &impl Print, name: &str, f: &[u8], n: usize) -> io::Result<()> {
    if n <= f.len() {
        show_check(rt, name, check_font(&f[..n], 64))
    } else {
        Ok(())
    }
}

fn bad_headers(rt: &impl Print) -> io::Result<()> {
    let whole = small_font();
    show_cut(rt, "three bytes of a font", &whole, 3)?;
    let mut f = small_font();
    f[0] = 0;
    show_check(rt, "nominal width 0", check_font(&f, 64))?;
    f[0] = 241;
    show_check(rt, "nominal width 241", check_font(&f, 64))?;
    let mut g = small_font();
    g[1] = 0;
    show_check(rt, "height 0", check_font(&g, 64))?;
    let mut h = small_font();
    h[2] = 67;
    show_check(rt, "first 67, last 66", check_font(&h, 64))?;
    h[2] = 66;
    show_check(rt, "first 66, last 66", check_font(&h, 64))
}

fn bad_entries(rt: &impl Print) -> io::Result<()> {
    let whole = small_font();
    show_cut(rt, "without its last byte", &whole, 14)?;
    show_cut(rt, "without the end of its table", &whole, 9)?;
    let mut f = small_font();
    f[3] = 255;
    show_check(rt, "last 255", check_font(&f, 64))?;
    let mut g = small_font();
    g[6] = 0;
    show_check(rt, "a glyph 0 wide", check_font(&g, 64))?;
    let mut h = small_font();
    h[4] = 1;
    show_check(rt, "a glyph at 266", check_font(&h, 64))
}

// One character, in a file with room for it.
fn large_glyphs(rt: &impl Print) -> io::Result<()> {
    let mut f = [0u8; 64];
    f[0] = 1;
    f[1] = 64;
    f[2] = 65;
    f[3] = 65;
    f[6] = 1;
    show_check(rt, "height 64", check_font(&f, 64))?;
    f[1] = 65;
    show_check(rt, "height 65", check_font(&f, 64))?;
    f[1] = 1;
    f[6] = 240;
    show_check(rt, "a glyph 240 wide", check_font(&f, 64))?;
    f[6] = 241;
    show_check(rt, "a glyph 241 wide", check_font(&f, 64))
}

fn show_glyph(rt: &impl Print, name: &str, f: &[u8], character: u8) -> io::Result<()> {
    match glyph_of(f, character) {
        Some(
            Glyph {
                offset,
                width,
                height,
            },
        ) => println!(rt; "{name}: at {offset}, width {width}, height {height}"),
        None => println!(rt; "{name}: missing"),
    }
}

fn glyphs(rt: &impl Print) -> io::Result<()> {
    let f = small_font();
    show_glyph(rt, "character 64", &f, 64)?;
    show_glyph(rt, "character 65", &f, 65)?;
    show_glyph(rt, "character 66", &f, 66)?;
    show_glyph(rt, "character 67", &f, 67)
}

fn bitmaps(rt: &impl Print) -> io::Result<()> {
    let b = [5, 4, 0xfc, 0x63, 0xf0, 0];
    let exact = 5;
    show_check(rt, "5 by 4 in 3 bytes", check_bitmap(&b[..exact]))?;
    let short = 4;
    show_check(rt, "in 2 bytes", check_bitmap(&b[..short]))?;
    show_check(rt, "in 4 bytes", check_bitmap(&b))?;
    let narrow = [0, 4];
    show_check(rt, "0 by 4 in no bytes", check_bitmap(&narrow))?;
    let flat = [5, 0];
    show_check(rt, "5 by 0 in no bytes", check_bitmap(&flat))?;
    let none = 0;
    show_check(rt, "no file", check_bitmap(&b[..none]))
}

// The queue, with signals at 40 bytes free and at 39 bytes held.
fn flow() -> Flow {
    Flow {
        on: true,
        full: 40,
        empty: 39,
    }
}

fn place_queue(q: &mut [u8; queue::RECORD], place: u8, held: u8) {
    q[PLACE] = place;
    q[HELD] = held;
}

fn lost(q: &[u8; queue::RECORD]) -> u16 {
    u16::from_le_bytes([q[LOST], q[LOST_HIGH]])
}

fn put(rt: &impl Print, q: &mut [u8], byte: u8) -> io::Result<()> {
    let answer = match arrive(q, flow(), byte) {
        Ok(_) => 0,
        Err(error) => u8::from(error),
    };
    println!(rt; "put {byte}: answer {answer}")
}

fn get(rt: &impl Print, q: &mut [u8]) -> io::Result<()> {
    let (answer, byte) = match take(q, flow()) {
        Ok(taken) => (0, taken.byte),
        Err(error) => (u8::from(error), 0),
    };
    println!(rt; "get: answer {answer}, byte {byte}")
}

fn wraps(rt: &impl Print) -> io::Result<()> {
    println!(rt; "a ring from place 79")?;
    let mut q = [0; queue::RECORD];
    place_queue(&mut q, 79, 0);
    get(rt, &mut q)?;
    put(rt, &mut q, 1)?;
    put(rt, &mut q, 2)?;
    get(rt, &mut q)?;
    put(rt, &mut q, 3)?;
    get(rt, &mut q)?;
    get(rt, &mut q)?;
    get(rt, &mut q)?;
    println!(rt; "place {}", byte_at(&q, PLACE))
}

// n bytes put, and the signals among them.
fn fill(rt: &impl Print, q: &mut [u8], n: u8) -> io::Result<()> {
    for k in 1..=n {
        if let Ok(Some(signal)) = arrive(q, flow(), k) {
            let number = u8::from(signal);
            println!(rt; "byte {k} sends {number}")?;
        }
    }
    Ok(())
}

fn drain(rt: &impl Print, q: &mut [u8], n: u8) -> io::Result<()> {
    for k in 1..=n {
        if let Ok(
            TakenByte {
                signal: Some(signal),
                ..
            },
        ) = take(q, flow())
        {
            let number = u8::from(signal);
            println!(rt; "take {k} sends {number}")?;
        }
    }
    Ok(())
}

fn signals(rt: &impl Print) -> io::Result<()> {
    println!(rt; "80 bytes put")?;
    let mut q = [0; queue::RECORD];
    fill(rt, &mut q, 80)?;
    println!(rt; "held {}", byte_at(&q, HELD))?;
    put(rt, &mut q, 81)?;
    println!(rt; "lost {}", lost(&q))?;
    println!(rt; "80 bytes taken")?;
    drain(rt, &mut q, 80)?;
    println!(rt; "held {}", byte_at(&q, HELD))?;
    get(rt, &mut q)?;
    println!(rt; "lost {}", lost(&q))
}

fn losses(rt: &impl Print) -> io::Result<()> {
    println!(rt; "a full queue that lost 65535")?;
    let mut q = [0; queue::RECORD];
    place_queue(&mut q, 0, 80);
    q[LOST] = 255;
    q[LOST_HIGH] = 255;
    put(rt, &mut q, 1)?;
    println!(rt; "lost {}", lost(&q))?;
    println!(rt; "held {}", byte_at(&q, HELD))
}

fn unsound(rt: &impl Print) -> io::Result<()> {
    println!(rt; "a place of 80")?;
    let mut q = [0; queue::RECORD];
    place_queue(&mut q, 80, 1);
    put(rt, &mut q, 1)?;
    get(rt, &mut q)?;
    println!(rt; "held {}", byte_at(&q, HELD))
}

fn main(rt: HostRuntime) -> io::Result<()> {
    lengths(&rt)?;
    ends(&rt)?;
    garbage(&rt)?;
    unknown_kind(&rt)?;
    counts(&rt)?;
    record_bytes(&rt)?;
    numbers(&rt)?;
    newer_numbers(&rt)?;
    sizes(&rt)?;
    newer_sizes(&rt)?;
    finds(&rt)?;
    editions(&rt)?;
    deletes(&rt)?;
    newer_deletes(&rt)?;
    good_fonts(&rt)?;
    glyph_places(&rt)?;
    bad_headers(&rt)?;
    bad_entries(&rt)?;
    large_glyphs(&rt)?;
    glyphs(&rt)?;
    bitmaps(&rt)?;
    wraps(&rt)?;
    signals(&rt)?;
    losses(&rt)?;
    unsound(&rt)
}
