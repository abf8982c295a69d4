// What comes of a byte: the next port, and the bytes to send. A refusal alters nothing of the port but what it names.
#![tactic(auto)]

ghost use Rattle.std.specs.Prelude.{◌≡◌, ℕ};
ghost use Rattle.state.specs.State.{with_text};
ghost use Rattle.outcome.specs.Outcome.{one_byte, two_bytes, in_phase_of, refused_port, done_of, refused_of, sending_of};

use state::{ARGUMENTS, Line, Phase, Port, Refusals, Text};

// The bytes to send, at most two, the first one first.
#[derive(Clone, Copy)]
pub enum Reply {
    Silence,
    One(u8),
    Two(u8, u8),
}

#[derive(Clone, Copy)]
pub struct Outcome {
    pub port: Port,
    pub reply: Reply,
}

pub fn one_byte(byte: u8) -> Reply
    ensures { result ≡ one_byte byte }
{
    Reply::One(byte)
}

pub fn two_bytes(first: u8, second: u8) -> Reply
    ensures { result ≡ two_bytes first second }
{
    Reply::Two(first, second)
}

// Here and below the port is copied whole, and then a part of it is set: a struct update moves each part by itself, and a character or an upload's
// byte takes a fifth more instructions (docs/DESIGN-PASS.md, Speed and size).

// The line in another phase, with no arguments gathered.
pub fn in_phase(port: Port, phase: Phase) -> Port
    ensures { result ≡ in_phase_of port phase }
{
    let mut next = port;
    next.line = Line {
        phase,
        args: [0; ARGUMENTS],
    };
    next
}

pub fn put_text(port: Port, text: Text) -> Port
    ensures { result ≡ with_text port text }
{
    let mut next = port;
    next.text = text;
    next
}

// What was under way ends, the refusal is counted, from 65535 on to 0, and is the last one. Any byte may be its number.
pub fn refuse<R: Into<u8>>(port: Port, refusal: R) -> Port
    ensures { (n : ℕ) × R.converts refusal n × (result ≡ refused_port port n) }
{
    let refusals = Refusals {
        count: port.refusals.count.wrapping_add(1),
        last: refusal.into(),
    };
    let mut ended = in_phase(port, Phase::Idle);
    ended.refusals = refusals;
    ended
}

pub fn done(port: Port) -> Outcome
    ensures { result ≡ done_of port }
{
    sending(port, Reply::Silence)
}

// In line, for what obeys a byte by itself: its port then stays in registers.
#[inline(always)]
pub fn refused_in_line<R: Into<u8>>(port: Port, refusal: R) -> Outcome
    ensures { (n : ℕ) × R.converts refusal n × (result ≡ refused_of port n) }
{
    done(refuse(port, refusal))
}

// As a call, for the commands: in line, each of them would move the port part by part, and refusals are few. So is each command that sets a part of
// the port, since what one of them has in line all of them pay for.
#[inline(never)]
pub fn refused<R: Into<u8>>(port: Port, refusal: R) -> Outcome
    ensures { (n : ℕ) × R.converts refusal n × (result ≡ refused_of port n) }
{
    refused_in_line(port, refusal)
}

pub fn sending(port: Port, reply: Reply) -> Outcome
    ensures { result ≡ sending_of port reply }
{
    Outcome { port, reply }
}
