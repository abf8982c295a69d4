// Prints every glyph of the built-in font, 16 to a row: '#' is black, '.' white.
#![tactic(auto)]

use fonts::height;
use opened_font::{Glyph, glyph_of};
use std::io;

// Bit number n of packed rows, highest bit first; behind the end all are white.
fn is_black(rows: &[u8], n: usize) -> bool {
    let byte = rows.get(n / 8).copied().unwrap_or(0);
    (byte >> (7 - n % 8)) % 2 == 1
}

fn show_dot(rt: &impl Print, black: bool) -> io::Result<()> {
    rt.write_all(if black { b"#" } else { b"." })
}

// Row y of a glyph.
fn show_row(rt: &impl Print, rows: &[u8], width: u8, y: u8) -> io::Result<()> {
    for x in 0..width {
        show_dot(
            rt,
            is_black(rows, usize::from(y) * usize::from(width) + usize::from(x)),
        )?;
    }
    Ok(())
}

fn show_glyph(rt: &impl Print, font: &[u8], character: u8, y: u8) -> io::Result<()> {
    let Some(Glyph { offset, width, .. }) = glyph_of(font, character) else {
        return Ok(());
    };
    match font.get(offset..) {
        Some(rows) => show_row(rt, rows, width, y),
        None => Ok(()),
    }
}

// Row y of the characters from the first to the last, with a blank column between two.
fn show_line(rt: &impl Print, font: &[u8], first: u8, last: u8, y: u8) -> io::Result<()> {
    show_glyph(rt, font, first, y)?;
    for c in first..last {
        rt.write_all(b" ")?;
        show_glyph(rt, font, c + 1, y)?;
    }
    rt.write_all(b"\n")
}

fn show(rt: &impl Print, font: &[u8], first: u8, last: u8) -> io::Result<()> {
    for y in 0..height(font) {
        show_line(rt, font, first, last, y)?;
    }
    Ok(())
}

fn main(rt: HostRuntime) -> io::Result<()> {
    let font = builtin_font::file();
    show(&rt, &font, 32, 47)?;
    for first in [48, 64, 80, 96, 112] {
        rt.write_all(b"\n")?;
        show(&rt, &font, first, (first + 15).min(126))?;
    }
    Ok(())
}
