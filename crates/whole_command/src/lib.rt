// A command that stands whole at the front of what is left of a piece: how many bytes it has, and obeyed at once.
#![tactic(auto)]

ghost use Rattle.std.specs.Prelude.{◌≡◌, ◌+◌, ◌<◌, ◌≤◌, SomeIff, length, take, drop};
ghost use Rattle.std.proofs.lemmas.List.Edits.{sets};
ghost use Rattle.state.specs.State.{no_args};
ghost use Rattle.rules.specs.Step.{obey};
ghost use Rattle.outcome.specs.Contract.{lent, told_both, Obeys};
ghost use Rattle.whole_command.specs.Whole.{is_idle, command_in, fixed_arguments, whole_in};

use commands::obey;
use interpreter::{PREFIX, SHOW_BITMAP};
use outcome::{Outcome, refused};
use record::copy_bytes;
use refusals::Refusal;
use state::{ARGUMENTS, Command, Config, Phase, Port, arguments_of};

// Prefix and code, before the arguments.
const ARGUMENTS_AT: usize = 2;

fn is_idle(phase: Phase) -> bool
    ensures { result ≡ is_idle phase }
{
    matches!(phase, Phase::Idle)
}

// The bytes of a command that stands whole at the front, outside any other.
#[tactic(auto, unfolding(crate::specs::Whole::whole_in, crate::specs::Whole::is_whole))]
pub fn whole_length(edition: u8, phase: Phase, bytes: &[u8]) -> Option<usize>
    ensures { SomeIff result (0 < whole_in edition phase bytes.now) (whole_in edition phase bytes.now) }
{
    if !is_idle(phase)
        || bytes.len() < ARGUMENTS_AT
        || bytes[0] != PREFIX
        || bytes[1] == SHOW_BITMAP
    {
        return None;
    }
    let command = Command::from(bytes[1]);
    let length = ARGUMENTS_AT + usize::from(arguments_of(edition, command));
    if bytes.len() < length {
        return None;
    }
    Some(length)
}

// So many arguments, with zeros behind them.
fn fixed_arguments(bytes: &[u8], count: usize) -> [u8; ARGUMENTS]
    requires { (2 + count ≤ length bytes.now) × (count ≤ 6) }
    ensures { result ≡ sets no_args 0 (take count (drop 2 bytes.now)) }
{
    let mut args = [0; ARGUMENTS];
    copy_bytes(
        &mut args[..count],
        &bytes[ARGUMENTS_AT..ARGUMENTS_AT + count],
    );
    args
}

// The command whose code stands behind a prefix, with the arguments that follow; 0 for each that is not there.
pub fn obey_whole(
    framebuffer: &mut [u8],
    store: &mut [u8],
    panel: &mut [u8],
    port: Port,
    config: Config,
    bytes: &[u8],
) -> Outcome
    ensures { Obeys (told_both config) (obey (command_in bytes.now) (fixed_arguments config.edition bytes.now)) port (lent framebuffer.old framebuffer.new) (lent store.old store.new) (lent panel.old panel.new) result }
{
    if bytes.len() < ARGUMENTS_AT {
        return refused(port, Refusal::UnknownCommand);
    }
    let command = Command::from(bytes[1]);
    let count = usize::from(arguments_of(config.edition, command)).min(bytes.len() - ARGUMENTS_AT);
    let args = fixed_arguments(bytes, count);
    obey(command, args, framebuffer, store, panel, port, config)
}
