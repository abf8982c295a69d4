// Draws small cases of every painter and prints them as rows of text: '#' is black, '.' white.
#![tactic(auto)]

use bar_graph::{Bar, write_bar};
use bitmap::{paint_inline, paint_packed};
use canvas::{Colour, LOW_LENGTH, is_black, plot};
use line::draw_line;
use rectangle::{draw_frame, fill_rectangle};
use scroll::{clear, scroll_up};
use std::io;
use strip_chart::shift_strip;

fn show_pixel(rt: &impl Print, framebuffer: &[u8], x: u16, y: u16) -> io::Result<()> {
    let mark = if is_black(framebuffer, x, y) {
        b"#"
    } else {
        b"."
    };
    rt.write_all(mark)
}

fn show_row(rt: &impl Print, framebuffer: &[u8], x1: u16, x2: u16, y: u16) -> io::Result<()> {
    for x in x1..x2 {
        show_pixel(rt, framebuffer, x, y)?;
    }
    println!(rt)
}

// Columns x1 up to, and not with, x2 of rows y1 up to, and not with, y2.
fn show(rt: &impl Print, framebuffer: &[u8], x1: u16, x2: u16, y1: u16, y2: u16) -> io::Result<()> {
    for y in y1..y2 {
        show_row(rt, framebuffer, x1, x2, y)?;
    }
    Ok(())
}

fn pixels(rt: &impl Print) -> io::Result<()> {
    let mut framebuffer = [0u8; LOW_LENGTH];
    plot(&mut framebuffer, 0, 0, Colour::BLACK);
    plot(&mut framebuffer, 3, 1, Colour::BLACK);
    plot(&mut framebuffer, 240, 0, Colour::BLACK);
    println!(rt; "pixels 0 0, 3 1 and 240 0")?;
    show(rt, &framebuffer, 0, 8, 0, 2)
}

fn colours(rt: &impl Print) -> io::Result<()> {
    let mut framebuffer = [0u8; LOW_LENGTH];
    fill_rectangle(&mut framebuffer, 0, 0, 1, 0, Colour::BLACK);
    for (x, byte) in (1..7).zip([0, 1, 2, 128, 254, 255]) {
        plot(&mut framebuffer, x, 0, Colour::from(byte));
    }
    println!(rt; "colour bytes 0 1 2 128 254 255 from column 1, 0 on black")?;
    show(rt, &framebuffer, 0, 8, 0, 1)
}

fn solids(rt: &impl Print) -> io::Result<()> {
    let mut framebuffer = [0u8; LOW_LENGTH];
    fill_rectangle(&mut framebuffer, 1, 1, 3, 2, Colour::BLACK);
    fill_rectangle(&mut framebuffer, 2, 1, 2, 1, Colour::WHITE);
    println!(rt; "solid 1 1 3 2, then white 2 1 2 1")?;
    show(rt, &framebuffer, 0, 6, 0, 4)?;
    fill_rectangle(&mut framebuffer, 238, 62, 255, 255, Colour::BLACK);
    println!(rt; "solid 238 62 255 255, from column 234 of row 60")?;
    show(rt, &framebuffer, 234, 240, 60, 64)
}

fn frames(rt: &impl Print) -> io::Result<()> {
    let mut framebuffer = [0u8; LOW_LENGTH];
    draw_frame(&mut framebuffer, 1, 0, 5, 3, Colour::BLACK);
    println!(rt; "frame 1 0 5 3")?;
    show(rt, &framebuffer, 0, 7, 0, 5)?;
    draw_frame(&mut framebuffer, 236, 60, 250, 70, Colour::BLACK);
    println!(rt; "frame 236 60 250 70, from column 234 of row 59")?;
    show(rt, &framebuffer, 234, 240, 59, 64)
}

fn lines(rt: &impl Print) -> io::Result<()> {
    let mut framebuffer = [0u8; LOW_LENGTH];
    draw_line(&mut framebuffer, 0, 0, 2, 1, Colour::BLACK);
    println!(rt; "line 0 0 2 1")?;
    show(rt, &framebuffer, 0, 3, 0, 2)?;
    clear(&mut framebuffer);
    draw_line(&mut framebuffer, 2, 1, 0, 0, Colour::BLACK);
    println!(rt; "line 2 1 0 0")?;
    show(rt, &framebuffer, 0, 3, 0, 2)?;
    draw_line(&mut framebuffer, 7, 7, 7, 7, Colour::BLACK);
    println!(rt; "line 7 7 7 7, from column 6 of row 6")?;
    show(rt, &framebuffer, 6, 9, 6, 9)?;
    clear(&mut framebuffer);
    draw_line(&mut framebuffer, 1, 0, 0, 3, Colour::BLACK);
    println!(rt; "line 1 0 0 3")?;
    show(rt, &framebuffer, 0, 2, 0, 4)?;
    draw_line(&mut framebuffer, 250, 0, 236, 0, Colour::BLACK);
    println!(rt; "line 250 0 236 0, from column 234")?;
    show(rt, &framebuffer, 234, 240, 0, 1)
}

fn bar(kind: u8, x1: u8, y1: u8, x2: u8, y2: u8) -> Bar {
    Bar {
        kind,
        x1,
        y1,
        x2,
        y2,
        value: 0,
    }
}

fn vertical_bars(rt: &impl Print) -> io::Result<()> {
    let mut framebuffer = [0u8; LOW_LENGTH];
    let up = write_bar(&mut framebuffer, bar(bar_graph::FROM_BOTTOM, 1, 0, 3, 4), 2);
    println!(rt; "bar from the bottom, 1 0 3 4, value 2")?;
    show(rt, &framebuffer, 0, 5, 0, 5)?;
    write_bar(&mut framebuffer, up, 0);
    write_bar(&mut framebuffer, bar(bar_graph::FROM_TOP, 1, 0, 3, 4), 2);
    println!(rt; "bar from the top, 1 0 3 4, value 2")?;
    show(rt, &framebuffer, 0, 5, 0, 5)?;
    write_bar(
        &mut framebuffer,
        bar(bar_graph::FROM_BOTTOM, 10, 10, 12, 19),
        255,
    );
    println!(rt; "bar from the bottom, 10 10 12 19, value 255, from column 9 of row 9")?;
    show(rt, &framebuffer, 9, 14, 9, 21)
}

fn horizontal_bars(rt: &impl Print) -> io::Result<()> {
    let mut framebuffer = [0u8; LOW_LENGTH];
    let right = write_bar(&mut framebuffer, bar(bar_graph::FROM_LEFT, 0, 0, 9, 1), 3);
    println!(rt; "bar from the left, 0 0 9 1, value 3")?;
    show(rt, &framebuffer, 0, 10, 0, 2)?;
    let grown = write_bar(&mut framebuffer, right, 5);
    println!(rt; "then 5")?;
    show(rt, &framebuffer, 0, 10, 0, 2)?;
    write_bar(&mut framebuffer, grown, 2);
    println!(rt; "then 2")?;
    show(rt, &framebuffer, 0, 10, 0, 2)?;
    clear(&mut framebuffer);
    write_bar(&mut framebuffer, grown, 7);
    println!(rt; "wiped at 5, then 7: only what differs is painted")?;
    show(rt, &framebuffer, 0, 10, 0, 2)?;
    clear(&mut framebuffer);
    write_bar(&mut framebuffer, bar(bar_graph::FROM_RIGHT, 0, 0, 9, 1), 3);
    println!(rt; "bar from the right, 0 0 9 1, value 3")?;
    show(rt, &framebuffer, 0, 10, 0, 2)?;
    fill_rectangle(&mut framebuffer, 0, 0, 9, 1, Colour::BLACK);
    write_bar(&mut framebuffer, bar(bar_graph::FROM_LEFT, 1, 0, 8, 1), 0);
    println!(rt; "all black, then a bar 1 0 8 1 written with 0")?;
    show(rt, &framebuffer, 0, 10, 0, 2)
}

// ##.##.## in row 0.
fn pattern(framebuffer: &mut [u8]) {
    fill_rectangle(framebuffer, 0, 0, 7, 0, Colour::BLACK);
    plot(framebuffer, 2, 0, Colour::WHITE);
    plot(framebuffer, 5, 0, Colour::WHITE);
}

fn strips(rt: &impl Print) -> io::Result<()> {
    let mut framebuffer = [0u8; LOW_LENGTH];
    pattern(&mut framebuffer);
    println!(rt; "a row")?;
    show(rt, &framebuffer, 0, 8, 0, 1)?;
    shift_strip(&mut framebuffer, 1, 0, 5, 0, false);
    println!(rt; "strip 1 0 5 0 of it moved left")?;
    show(rt, &framebuffer, 0, 8, 0, 1)?;
    pattern(&mut framebuffer);
    shift_strip(&mut framebuffer, 1, 0, 5, 0, true);
    println!(rt; "strip 1 0 5 0 of it moved right")?;
    show(rt, &framebuffer, 0, 8, 0, 1)
}

fn packed(rt: &impl Print) -> io::Result<()> {
    let mut framebuffer = [0u8; LOW_LENGTH];
    let t = [0xe9, 0x24];
    paint_packed(&mut framebuffer, 1, 1, 3, 5, &t);
    println!(rt; "glyph E9 24, 3 by 5, at 1 1")?;
    show(rt, &framebuffer, 0, 5, 0, 7)?;
    fill_rectangle(&mut framebuffer, 0, 0, 4, 6, Colour::BLACK);
    paint_packed(&mut framebuffer, 1, 1, 3, 5, &t);
    println!(rt; "the same on black")?;
    show(rt, &framebuffer, 0, 5, 0, 7)?;
    clear(&mut framebuffer);
    let ring = [0xfc, 0x63, 0xf0];
    paint_packed(&mut framebuffer, 0, 0, 5, 4, &ring);
    println!(rt; "saved FC 63 F0, 5 by 4, at 0 0")?;
    show(rt, &framebuffer, 0, 6, 0, 5)?;
    paint_packed(&mut framebuffer, 238, 0, 5, 4, &ring);
    println!(rt; "the same at 238 0, from column 236")?;
    show(rt, &framebuffer, 236, 240, 0, 4)
}

fn in_line(rt: &impl Print) -> io::Result<()> {
    let mut framebuffer = [0u8; LOW_LENGTH];
    for (k, byte) in (0..4).zip([0xff, 0x8f, 0x8f, 0xff]) {
        paint_inline(&mut framebuffer, 1, 0, 5, 3, k, byte);
    }
    println!(rt; "in line FF 8F 8F FF for 1 0 5 3")?;
    show(rt, &framebuffer, 0, 10, 0, 5)?;
    clear(&mut framebuffer);
    for (k, byte) in (0..4).zip([0x80, 0x80, 0x01, 0x7f]) {
        paint_inline(&mut framebuffer, 0, 0, 8, 1, k, byte);
    }
    println!(rt; "in line 80 80 01 7F for 0 0 8 1")?;
    show(rt, &framebuffer, 0, 10, 0, 2)
}

fn scrolls(rt: &impl Print) -> io::Result<()> {
    let mut framebuffer = [0u8; LOW_LENGTH];
    draw_line(&mut framebuffer, 0, 0, 2, 2, Colour::BLACK);
    plot(&mut framebuffer, 3, 63, Colour::BLACK);
    scroll_up(&mut framebuffer, 1);
    println!(rt; "line 0 0 2 2 scrolled up by one row")?;
    show(rt, &framebuffer, 0, 4, 0, 3)?;
    println!(rt; "and pixel 3 63, from row 61")?;
    show(rt, &framebuffer, 0, 4, 61, 64)?;
    scroll_up(&mut framebuffer, 300);
    println!(rt; "and by 300")?;
    show(rt, &framebuffer, 0, 4, 0, 1)?;
    show(rt, &framebuffer, 0, 4, 62, 63)
}

fn main(rt: HostRuntime) -> io::Result<()> {
    pixels(&rt)?;
    colours(&rt)?;
    solids(&rt)?;
    frames(&rt)?;
    lines(&rt)?;
    vertical_bars(&rt)?;
    horizontal_bars(&rt)?;
    strips(&rt)?;
    packed(&rt)?;
    in_line(&rt)?;
    scrolls(&rt)
}
