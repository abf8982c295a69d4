// The state at the start.
ghost use Rattle.std.specs.Prelude.{◌≡◌};
ghost use Rattle.state.specs.State.{start_text, start_port, start_panel, start_state};

use super::{
    ARGUMENTS, BARS, Backlight, BarSlot, Config, Drawing, Line, Panel, Phase, Port, Refusals,
    STRIPS, Serial, State, Strip, Text,
};
use bar_graph::Bar;
use canvas::Colour;
use queue::Flow;

pub fn start_text(height: u8) -> Text
    ensures { result ≡ start_text height }
{
    Text {
        font: 1,
        x: 0,
        y: 0,
        left: 0,
        top: 0,
        char_space: 0,
        line_space: 1,
        scroll_row: height,
        wrap: true,
        scroll: true,
    }
}

fn start_port(height: u8) -> Port
    ensures { result ≡ start_port height }
{
    Port {
        line: Line {
            phase: Phase::Idle,
            args: [0; ARGUMENTS],
        },
        text: start_text(height),
        drawing: Drawing {
            colour: Colour::BLACK,
            x: 0,
            y: 0,
        },
        flow: Flow {
            on: false,
            full: 0,
            empty: 0,
        },
        refusals: Refusals { count: 0, last: 0 },
    }
}

fn start_panel(used: u16) -> Panel
    ensures { result ≡ start_panel used }
{
    let slot = BarSlot {
        on: false,
        bar: Bar {
            kind: 0,
            x1: 0,
            y1: 0,
            x2: 0,
            y2: 0,
            value: 0,
        },
    };
    let strip = Strip {
        on: false,
        x1: 0,
        y1: 0,
        x2: 0,
        y2: 0,
    };
    Panel {
        bars: [slot; BARS],
        strips: [strip; STRIPS],
        serial: Serial {
            on: false,
            a: 0,
            b: 0,
        },
        contrast: 128,
        backlight: Backlight {
            on: true,
            minutes: 0,
        },
        used,
    }
}

// Files in the store take so many bytes.
pub fn start_state(config: Config, used: u16) -> State
    ensures { result ≡ start_state config used }
{
    State {
        config,
        port: start_port(config.height),
        panel: start_panel(used),
    }
}
