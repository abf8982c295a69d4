// What the display remembers between bytes, by value: what the board chose at start, what belongs to one serial line (Port) and what belongs to the display (Panel).
#![tactic(auto)]

mod checks;
mod initial;

ghost use Rattle.std.specs.Prelude.{◌≡◌};
ghost use Rattle.state.specs.Commands.{row_of, arguments_of, command_of};

use bar_graph::Bar;
use canvas::Colour;
pub use checks::{
    are_corners_sound, inline_bytes, is_edition, is_gathering, is_inline, is_set_up_sound,
    is_upload,
};
pub use initial::{start_state, start_text};
use queue::Flow;

// The editions of the upload protocol; numbers and no enum, since `is_edition` is asked of any number and `config_in` (record) reads any byte.
pub const OLDER: u8 = 1;

pub const NEWER: u8 = 2;

// The milliseconds after which an upload is dropped.
pub const PATIENCE: u16 = 2100;

#[derive(Clone, Copy)]
pub enum Command {
    Unknown,
    Clear,
    Home,
    SetPoint,
    SetPlace,
    WrapOn,
    WrapOff,
    ScrollOn,
    ScrollOff,
    ChooseFont,
    SetMetrics,
    SetColour,
    DrawPixel,
    DrawLine,
    ContinueLine,
    DrawFrame,
    FillRectangle,
    SetUpBar,
    WriteBar,
    SetUpStrip,
    ShiftStrip,
    ShowBitmap,
    DrawInline,
    UploadFont,
    UploadBitmap,
    DeleteFile,
    Purge,
    FlowOn,
    FlowOff,
    SetContrast,
    BacklightOn,
    BacklightOff,
    SetSerial,
}

impl From<u8> for Command {
    ghost from_gives = { λ code command. command ≡ command_of code };

    #[tactic(auto, unfolding(crate::specs::Commands::command_of))]
    fn from(code: u8) -> Command {
        match code {
            33 => Command::Purge,
            36 => Command::UploadFont,
            49 => Command::ChooseFont,
            50 => Command::SetMetrics,
            52 => Command::SetSerial,
            58 => Command::FlowOn,
            59 => Command::FlowOff,
            66 => Command::BacklightOn,
            67 => Command::WrapOn,
            68 => Command::WrapOff,
            70 => Command::BacklightOff,
            71 => Command::SetPlace,
            72 => Command::Home,
            80 => Command::SetContrast,
            81 => Command::ScrollOn,
            82 => Command::ScrollOff,
            88 => Command::Clear,
            94 => Command::UploadBitmap,
            98 => Command::ShowBitmap,
            99 => Command::SetColour,
            100 => Command::DrawInline,
            101 => Command::ContinueLine,
            103 => Command::SetUpBar,
            105 => Command::WriteBar,
            106 => Command::SetUpStrip,
            107 => Command::ShiftStrip,
            108 => Command::DrawLine,
            112 => Command::DrawPixel,
            114 => Command::DrawFrame,
            120 => Command::FillRectangle,
            121 => Command::SetPoint,
            173 => Command::DeleteFile,
            _ => Command::Unknown,
        }
    }
}

// The command of a code.
pub fn command_of(code: u8) -> Command
    ensures { result ≡ command_of code }
{
    Command::from(code)
}

// How many fixed arguments a command has in each edition.
#[derive(Clone, Copy)]
pub struct Counts {
    pub older: u8,
    pub newer: u8,
}

fn counts_of(command: Command) -> Counts
    ensures { result ≡ (row_of command).counts }
{
    match command {
        Command::Unknown
        | Command::Clear
        | Command::Home
        | Command::WrapOn
        | Command::WrapOff
        | Command::ScrollOn
        | Command::ScrollOff
        | Command::FlowOff
        | Command::BacklightOff => Counts { older: 0, newer: 0 },
        Command::SetColour | Command::ShiftStrip | Command::SetContrast | Command::BacklightOn =>
            Counts { older: 1, newer: 1 },
        Command::ChooseFont => Counts { older: 1, newer: 2 },
        Command::SetPoint
        | Command::SetPlace
        | Command::DrawPixel
        | Command::ContinueLine
        | Command::WriteBar
        | Command::Purge
        | Command::FlowOn
        | Command::SetSerial => Counts { older: 2, newer: 2 },
        Command::DeleteFile => Counts { older: 2, newer: 3 },
        Command::ShowBitmap => Counts { older: 3, newer: 4 },
        Command::UploadFont | Command::UploadBitmap => Counts { older: 3, newer: 6 },
        Command::DrawLine | Command::DrawInline => Counts { older: 4, newer: 4 },
        Command::SetMetrics | Command::DrawFrame | Command::FillRectangle | Command::SetUpStrip =>
            Counts { older: 5, newer: 5 },
        Command::SetUpBar => Counts { older: 6, newer: 6 },
    }
}

pub fn arguments_of(edition: u8, command: Command) -> u8
    ensures { result ≡ arguments_of edition command }
{
    let counts = counts_of(command);
    if edition == NEWER {
        return counts.newer;
    }
    counts.older
}

// What the line is in the middle of; at most one thing, since it is one of these.
#[derive(Clone, Copy)]
pub enum Phase {
    Idle,
    // 254 has come.
    Prefix,
    // A command's code has come, and `got` of its fixed arguments.
    Gathering {
        code: u8,
        got: u8,
    },
    // Data in line for a rectangle: `done` bytes of it have come.
    Inline {
        x1: u8,
        y1: u8,
        x2: u8,
        y2: u8,
        done: u16,
    },
    // A file of `size` bytes, `stored` of them confirmed; `waiting` where `byte` was echoed and is not confirmed yet. So many milliseconds have passed since its
    // start or its last byte. The sort is no enum, and a byte that waits no Option: `decode_of` (record, specs Reading) reads any bytes of both.
    Upload {
        sort: u8,
        number: u16,
        size: u16,
        stored: u16,
        waiting: bool,
        byte: u8,
        waited: u16,
    },
}

// Fixed arguments of a command, at most.
pub const ARGUMENTS: usize = 6;

#[derive(Clone, Copy)]
pub struct Text {
    pub font: u16,
    pub x: u16,
    pub y: u8,
    pub left: u8,
    pub top: u8,
    pub char_space: u8,
    pub line_space: u8,
    pub scroll_row: u8,
    pub wrap: bool,
    pub scroll: bool,
}

// The drawing colour, and the point that the last line ended at.
#[derive(Clone, Copy)]
pub struct Drawing {
    pub colour: Colour,
    pub x: u8,
    pub y: u8,
}

// The last refusal by its number: `decode_of` (record, specs Reading) reads any byte.
#[derive(Clone, Copy)]
pub struct Refusals {
    pub count: u16,
    pub last: u8,
}

// What the line is in the middle of, with the arguments gathered so far: six bytes however many they are, as `decode_of` (record, specs Reading) reads them.
#[derive(Clone, Copy)]
pub struct Line {
    pub phase: Phase,
    pub args: [u8; ARGUMENTS],
}

// Flow control that is off keeps its thresholds: `flow_off` (rules, specs Settings).
#[derive(Clone, Copy)]
pub struct Port {
    pub line: Line,
    pub text: Text,
    pub drawing: Drawing,
    pub flow: Flow,
    pub refusals: Refusals,
}

pub const BARS: usize = 16;

pub const STRIPS: usize = 8;

// `on` where it is set up. No Option: `bar_at` of `panel` and `decode_of` (record, specs Reading) say what stands in an off slot too, which may be any bytes.
#[derive(Clone, Copy)]
pub struct BarSlot {
    pub on: bool,
    pub bar: Bar,
}

// No Option: `strip_at` of `panel` and `decode_of` (record, specs Reading) say the corners of an off strip too, which may be any bytes.
#[derive(Clone, Copy)]
pub struct Strip {
    pub on: bool,
    pub x1: u8,
    pub y1: u8,
    pub x2: u8,
    pub y2: u8,
}

// No Option: `serial_in` of `panel` and `decode_of` (record, specs Reading) say both numbers while none is stored too, which may be any bytes.
#[derive(Clone, Copy)]
pub struct Serial {
    pub on: bool,
    pub a: u8,
    pub b: u8,
}

// No Option: `clear_backlight` of `panel` keeps the minutes while it is off, and so does `backlight_off` (rules, specs Settings).
#[derive(Clone, Copy)]
pub struct Backlight {
    pub on: bool,
    pub minutes: u8,
}

// `used` is the room of the file area that the stored files take: the sum of their sizes.
#[derive(Clone, Copy)]
pub struct Panel {
    pub bars: [BarSlot; BARS],
    pub strips: [Strip; STRIPS],
    pub serial: Serial,
    pub contrast: u8,
    pub backlight: Backlight,
    pub used: u16,
}

// What the board chose at start: the framebuffer's rows, and the edition of the upload protocol.
#[derive(Clone, Copy)]
pub struct Config {
    pub height: u8,
    pub edition: u8,
}

#[derive(Clone, Copy)]
pub struct State {
    pub config: Config,
    pub port: Port,
    pub panel: Panel,
}
