// One input: what a byte comes to in each phase, and time.
#![tactic(auto)]

ghost use Rattle.std.specs.Prelude.{◌≡◌, true, ◌&&◌, ◌+◌, eqb, set};
ghost use Rattle.state.specs.declared.Phase.TheVariants.{Gathering};
ghost use Rattle.state.specs.State.{with_phase};
ghost use Rattle.rules.specs.Numbers.{number_bytes};
ghost use Rattle.rules.specs.Step.{code, argument, alone, time, outcome};
ghost use Rattle.rules.specs.Step as Step;
ghost use Rattle.outcome.specs.Contract.{unlent, lent, untold, told, told_edition, told_both, Obeys};

use commands::{first_number, number_bytes, obey};
use directory::{BITMAP, MAX_NUMBER, find};
use outcome::{Outcome, done, in_phase, refused_in_line};
use refusals::Refusal;
use state::{ARGUMENTS, Command, Config, Line, Phase, Port, arguments_of};

// The byte that begins a command.
pub const PREFIX: u8 = 254;

// A saved bitmap's code: its number alone can end it.
pub const SHOW_BITMAP: u8 = 98;

// A command's code: without arguments it is obeyed, else they are gathered.
fn take_code(
    framebuffer: &mut [u8],
    store: &mut [u8],
    panel: &mut [u8],
    port: Port,
    config: Config,
    byte: u8,
) -> Outcome
    ensures { Obeys (told_both config) (λ w. code w byte) port (lent framebuffer.old framebuffer.new) (lent store.old store.new) (lent panel.old panel.new) result }
{
    let command = Command::from(byte);
    if arguments_of(config.edition, command) == 0 {
        let outside = in_phase(port, Phase::Idle);
        return obey(
            command,
            [0; ARGUMENTS],
            framebuffer,
            store,
            panel,
            outside,
            config,
        );
    }
    done(in_phase(port, Phase::Gathering { code: byte, got: 0 }))
}

// The arguments with one more, as far as there is a place for it.
fn gathered(port: Port, got: u8, byte: u8) -> [u8; ARGUMENTS]
    ensures { result ≡ set port.line.args got byte }
{
    let mut args = port.line.args;
    let place = usize::from(got);
    if place < ARGUMENTS {
        args[place] = byte;
    }
    args
}

fn gathering(port: Port, code: u8, got: u8, args: [u8; ARGUMENTS]) -> Port
    ensures { result ≡ with_phase port (Gathering code got) args }
{
    let line = Line {
        phase: Phase::Gathering { code, got },
        args,
    };
    // Copied whole, as in outcome.
    let mut next = port;
    next.line = line;
    next
}

// Whether the last byte of a saved bitmap's number is due.
fn is_bitmap_due(edition: u8, code: u8, got: u8) -> bool
    ensures { result ≡ (eqb code 98 && eqb (got + 1) (number_bytes edition)) }
{
    code == SHOW_BITMAP && usize::from(got) + 1 == number_bytes(edition)
}

// It comes: a number that is too high, or that the directory does not have, ends the command.
fn take_bitmap(store: &[u8], port: Port, edition: u8, got: u8, byte: u8) -> Outcome
    requires { eqb (got + 1) (number_bytes edition) ≡ true }
    ensures { Obeys (told_edition edition) (λ w. argument w 98 got byte) port unlent (lent store.now store.now) unlent result }
{
    let args = gathered(port, got, byte);
    let number = first_number(edition, args);
    if number > MAX_NUMBER {
        return refused_in_line(port, Refusal::NumberOutOfRange);
    }
    let Some(_) = find(store, BITMAP, number) else {
        return refused_in_line(port, Refusal::NoSuchFile);
    };
    done(gathering(port, SHOW_BITMAP, got + 1, args))
}

// An argument: the last one has its command obeyed.
fn take_argument(
    framebuffer: &mut [u8],
    store: &mut [u8],
    panel: &mut [u8],
    port: Port,
    config: Config,
    code: u8,
    got: u8,
    byte: u8,
) -> Outcome
    ensures { Obeys (told_both config) (λ w. argument w code got byte) port (lent framebuffer.old framebuffer.new) (lent store.old store.new) (lent panel.old panel.new) result }
{
    if is_bitmap_due(config.edition, code, got) {
        return take_bitmap(store, port, config.edition, got, byte);
    }
    let command = Command::from(code);
    let args = gathered(port, got, byte);
    if u16::from(got) + 1 < u16::from(arguments_of(config.edition, command)) {
        return done(gathering(port, code, got + 1, args));
    }
    let outside = in_phase(port, Phase::Idle);
    obey(command, args, framebuffer, store, panel, outside, config)
}

// Outside a command 254 begins one, and any other byte is a character.
fn take_alone(framebuffer: &mut [u8], store: &[u8], port: Port, height: u8, byte: u8) -> Outcome
    ensures { Obeys (told height) (λ w. alone w byte) port (lent framebuffer.old framebuffer.new) (lent store.now store.now) unlent result }
{
    if byte == PREFIX {
        return done(in_phase(port, Phase::Prefix));
    }
    characters::draw_character(framebuffer, store, port, height, byte)
}

// A byte of the stream.
#[tactic(auto, using(outcome::proofs::Laws::obeys_as), unfolding(rules::specs::Step::by_phase))]
pub fn step(
    framebuffer: &mut [u8],
    store: &mut [u8],
    panel: &mut [u8],
    port: Port,
    config: Config,
    byte: u8,
) -> Outcome
    ensures { Obeys (told_both config) (λ w. outcome w (Step.byte byte)) port (lent framebuffer.old framebuffer.new) (lent store.old store.new) (lent panel.old panel.new) result }
{
    // Each phase has parts of its own, so a table of functions would be no plainer.
    match port.line.phase {
        Phase::Idle => take_alone(framebuffer, store, port, config.height, byte),
        Phase::Prefix => take_code(framebuffer, store, panel, port, config, byte),
        Phase::Gathering { code, got } => {
            take_argument(framebuffer, store, panel, port, config, code, got, byte)
        }
        Phase::Inline {
            x1,
            y1,
            x2,
            y2,
            done,
        } => pictures::inline_data(framebuffer, port, x1, y1, x2, y2, done, byte),
        Phase::Upload {
            sort,
            number,
            size,
            stored,
            waiting,
            byte: held,
            ..
        } => {
            let edition = config.edition;
            storage::upload_data(
                store, panel, port, edition, sort, number, size, stored, waiting, held, byte,
            )
        }
    }
}

// Milliseconds pass; only an upload under way minds.
#[tactic(auto, using(outcome::proofs::Laws::obeys_as), unfolding(rules::specs::Step::waits))]
pub fn pass(port: Port, milliseconds: u32) -> Outcome
    ensures { Obeys untold (λ w. outcome w (time milliseconds)) port unlent unlent unlent result }
{
    let Phase::Upload {
        sort,
        number,
        size,
        stored,
        waiting,
        byte: held,
        waited,
    } = port.line.phase
    else {
        return done(port);
    };
    storage::upload_waits(
        port,
        sort,
        number,
        size,
        stored,
        waiting,
        held,
        waited,
        milliseconds,
    )
}
