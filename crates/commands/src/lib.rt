// Every command with its fixed arguments, obeyed by the function of its family.
#![tactic(auto)]

ghost use Rattle.std.specs.Prelude.{◌≡◌, ◌+◌, ◌<◌, ◌≤◌};
ghost use Rattle.rules.specs.Numbers.{number_bytes, number_at, size_in};
ghost use Rattle.rules.specs.Step.{obey};
ghost use Rattle.outcome.specs.Contract.{lent, told_both, Obeys};

use directory::{BITMAP, FONT};
use outcome::{Outcome, refused};
use refusals::Refusal;
use state::{ARGUMENTS, Command, Config, NEWER, Port};

// A file's number that begins at `from`, low byte first.
fn number_at(edition: u8, a: [u8; ARGUMENTS], from: usize) -> u16
    requires { from + 1 < 6 }
    ensures { result ≡ number_at edition a from }
{
    if edition == NEWER {
        return u16::from_le_bytes([a[from], a[from + 1]]);
    }
    u16::from(a[from])
}

// A file's number that comes first.
pub fn first_number(edition: u8, a: [u8; ARGUMENTS]) -> u16
    ensures { result ≡ number_at edition a 0 }
{
    number_at(edition, a, 0)
}

// The bytes of a file's number.
pub fn number_bytes(edition: u8) -> usize
    ensures { (result ≡ number_bytes edition) × (1 ≤ result) × (result ≤ 2) }
{
    if edition == NEWER { 2 } else { 1 }
}

// The size behind a number.
fn size_in(edition: u8, a: [u8; ARGUMENTS]) -> u32
    ensures { result ≡ size_in edition a }
{
    if edition == NEWER {
        return u32::from_le_bytes([a[2], a[3], a[4], a[5]]);
    }
    u32::from(u16::from_le_bytes([a[1], a[2]]))
}

// A command with its fixed arguments.
#[tactic(auto, using(crate::proofs::Commands::obeys_command), unfolding(rules::specs::Step::obey))]
pub fn obey(
    command: Command,
    a: [u8; ARGUMENTS],
    framebuffer: &mut [u8],
    store: &mut [u8],
    panel: &mut [u8],
    port: Port,
    config: Config,
) -> Outcome
    ensures { Obeys (told_both config) (obey command a) port (lent framebuffer.old framebuffer.new) (lent store.old store.new) (lent panel.old panel.new) result }
{
    // Each command takes arguments of its own, so a table of functions would be no plainer.
    match command {
        Command::Unknown => refused(port, Refusal::UnknownCommand),
        Command::Clear => drawing::clear(framebuffer, port),
        Command::Home => text::home(port),
        Command::SetPoint => text::set_point(port, a[0], a[1]),
        Command::SetPlace => text::set_place(store, port, config.height, a[0], a[1]),
        Command::WrapOn => text::set_wrap(port, true),
        Command::WrapOff => text::set_wrap(port, false),
        Command::ScrollOn => text::set_scroll(port, true),
        Command::ScrollOff => text::set_scroll(port, false),
        Command::ChooseFont => {
            text::choose_font(store, port, config.height, first_number(config.edition, a))
        }
        Command::SetMetrics => text::set_metrics(port, a[0], a[1], a[2], a[3], a[4]),
        Command::SetColour => drawing::set_colour(port, a[0]),
        Command::DrawPixel => drawing::draw_pixel(framebuffer, port, a[0], a[1]),
        Command::DrawLine => drawing::draw_line(framebuffer, port, a[0], a[1], a[2], a[3]),
        Command::ContinueLine => {
            let from = port.drawing;
            drawing::draw_line(framebuffer, port, from.x, from.y, a[0], a[1])
        }
        Command::DrawFrame => drawing::draw_frame(framebuffer, port, a[0], a[1], a[2], a[3], a[4]),
        Command::FillRectangle => {
            drawing::fill_rectangle(framebuffer, port, a[0], a[1], a[2], a[3], a[4])
        }
        Command::SetUpBar => {
            graphs::set_up_bar(
                panel,
                port,
                config.height,
                a[0],
                a[1],
                a[2],
                a[3],
                a[4],
                a[5],
            )
        }
        Command::WriteBar => graphs::write_bar(framebuffer, panel, port, a[0], a[1]),
        Command::SetUpStrip => graphs::set_up_strip(
            panel,
            port,
            config.height,
            a[0],
            a[1],
            a[2],
            a[3],
            a[4],
        ),
        Command::ShiftStrip => graphs::shift_strip(framebuffer, panel, port, a[0]),
        Command::ShowBitmap => {
            let number = first_number(config.edition, a);
            let i = number_bytes(config.edition);
            pictures::show_bitmap(framebuffer, store, port, number, a[i], a[i + 1])
        }
        Command::DrawInline => pictures::begin_inline(port, a[0], a[1], a[2], a[3]),
        Command::UploadFont => {
            let number = first_number(config.edition, a);
            let size = size_in(config.edition, a);
            storage::begin_upload(store, panel, port, config.edition, FONT, number, size)
        }
        Command::UploadBitmap => {
            let number = first_number(config.edition, a);
            let size = size_in(config.edition, a);
            storage::begin_upload(store, panel, port, config.edition, BITMAP, number, size)
        }
        Command::DeleteFile => {
            storage::delete_file(store, panel, port, a[0], number_at(config.edition, a, 1))
        }
        Command::Purge => storage::purge(store, panel, port, config.height, a[0], a[1]),
        Command::FlowOn => settings::flow_on(port, a[0], a[1]),
        Command::FlowOff => settings::flow_off(port),
        Command::SetContrast => settings::set_contrast(panel, port, a[0]),
        Command::BacklightOn => settings::backlight_on(panel, port, a[0]),
        Command::BacklightOff => settings::backlight_off(panel, port),
        Command::SetSerial => settings::set_serial(panel, port, a[0], a[1]),
    }
}
