// The line from one pixel to another.
//
// One axis, the major one, takes a step at every pixel; the other, the minor one, steps where the signed error term says so.
// Nothing in the loop divides. specs/Line.antt has the rule by division, and the proofs show that both are the same line.
#![tactic(auto)]

ghost use Rattle.std.specs.Prelude.{◌≡◌, ◌≤◌};
ghost use Rattle.pixels.specs.Framebuffer.{fill};
ghost use Rattle.pixels.specs.Regions.{point};
ghost use Rattle.line.specs.Line.{distance, line};
ghost use Rattle.line.specs.Walk.{direction_of, WalkerInRange, SlopeInRange, step_of, slope_of, start_of, column_of, row_of, traced};

use canvas::Colour;

// Where the line has come to on each axis, and the error term: a step that brings it to 0 or more steps the minor axis, too.
#[derive(Clone, Copy)]
struct Walker {
    major: i32,
    minor: i32,
    error: i32,
}

// What stays the same along a line: each axis's signed step, and twice the distance on the minor axis (the rise) and on the major (the run).
#[derive(Clone, Copy)]
struct Slope {
    major_step: i32,
    minor_step: i32,
    twice_rise: i32,
    twice_run: i32,
}

fn direction(from: u8, to: u8) -> i32
    ensures { result ≡ direction_of from to }
{
    (i32::from(to) - i32::from(from)).signum()
}

impl Slope {
    // From a1 to a2 on the major axis, and from b1 to b2 on the minor one.
    fn between(a1: u8, a2: u8, b1: u8, b2: u8) -> Slope
        ensures { result ≡ slope_of a1 a2 b1 b2 }
    {
        Slope {
            major_step: direction(a1, a2),
            minor_step: direction(b1, b2),
            twice_rise: 2 * i32::from(b2.abs_diff(b1)),
            twice_run: 2 * i32::from(a2.abs_diff(a1)),
        }
    }
}

impl Walker {
    // The error term is half of `twice_run` short of a step on the minor axis: so an exact half is rounded to a step.
    fn start(a1: u8, a2: u8, b1: u8) -> Walker
        ensures { result ≡ start_of a1 a2 b1 }
    {
        Walker {
            major: i32::from(a1),
            minor: i32::from(b1),
            error: -i32::from(a2.abs_diff(a1)),
        }
    }

    fn step(self, slope: Slope) -> Walker
        requires { WalkerInRange self × SlopeInRange slope }
        ensures { result ≡ step_of self slope }
    {
        let major = self.major + slope.major_step;
        let error = self.error + slope.twice_rise;
        if error < 0 {
            return Walker {
                major,
                error,
                ..self
            };
        }
        Walker {
            major,
            minor: self.minor + slope.minor_step,
            error: error - slope.twice_run,
        }
    }

    // The pixel that it has come to; `steep` says that its major axis is that of the rows.
    fn plot(self, framebuffer: &mut [u8], steep: bool, c: Colour)
        requires { WalkerInRange self }
        ensures { framebuffer.new ≡ fill (point (column_of steep self) (row_of steep self)) c.black framebuffer.old }
    {
        let major = self.major as u16;
        let minor = self.minor as u16;
        if steep {
            canvas::plot(framebuffer, minor, major, c);
        } else {
            canvas::plot(framebuffer, major, minor, c);
        }
    }
}

// The whole line, its axes by their roles: from a1 to a2 on the major one, and from b1 to b2 on the minor.
fn trace(framebuffer: &mut [u8], a1: u8, a2: u8, b1: u8, b2: u8, steep: bool, c: Colour)
    requires { distance b1 b2 ≤ distance a1 a2 }
    ensures { framebuffer.new ≡ fill (traced steep a1 a2 b1 b2) c.black framebuffer.old }
{
    let slope = Slope::between(a1, a2, b1, b2);
    let mut walker = Walker::start(a1, a2, b1);
    for _ in 0..a2.abs_diff(a1) {
        walker.plot(framebuffer, steep, c);
        walker = walker.step(slope);
    }
    walker.plot(framebuffer, steep, c);
}

// The line from (x1, y1) to (x2, y2), both in it; beyond the framebuffer nothing.
pub fn draw_line(framebuffer: &mut [u8], x1: u8, y1: u8, x2: u8, y2: u8, c: Colour)
    ensures { framebuffer.new ≡ fill (line x1 y1 x2 y2) c.black framebuffer.old }
{
    if y2.abs_diff(y1) <= x2.abs_diff(x1) {
        trace(framebuffer, x1, x2, y1, y2, false, c);
    } else {
        trace(framebuffer, y1, y2, x1, x2, true, c);
    }
}
