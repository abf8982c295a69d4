// Commands that only set something: flow control, contrast, backlight, serial number.
// What sets a part of the port is never in line, as `refused` (outcome) is not.
#![tactic(auto)]

ghost use Rattle.rules.specs.Settings.{flow_on, flow_off, set_contrast, backlight_on, backlight_off, set_serial};
ghost use Rattle.outcome.specs.Contract.{unlent, lent, untold, Obeys};

use outcome::{Outcome, done, refused, sending, two_bytes};
use queue::{Flow, SIZE};
use refusals::Refusal;
use state::Port;

#[inline(never)]
pub fn flow_on(port: Port, full: u8, empty: u8) -> Outcome
    ensures { Obeys untold (λ w. flow_on w full empty) port unlent unlent unlent result }
{
    if usize::from(full) + usize::from(empty) >= SIZE {
        return refused(port, Refusal::BadWatermarks);
    }
    let flow = Flow {
        on: true,
        full,
        empty,
    };
    done(Port { flow, ..port })
}

// The thresholds stay.
#[inline(never)]
pub fn flow_off(port: Port) -> Outcome
    ensures { Obeys untold flow_off port unlent unlent unlent result }
{
    let flow = Flow {
        on: false,
        ..port.flow
    };
    done(Port { flow, ..port })
}

pub fn set_contrast(panel: &mut [u8], port: Port, contrast: u8) -> Outcome
    ensures { Obeys untold (λ w. set_contrast w contrast) port unlent unlent (lent panel.old panel.new) result }
{
    panel::set_contrast(panel, contrast);
    done(port)
}

pub fn backlight_on(panel: &mut [u8], port: Port, minutes: u8) -> Outcome
    ensures { Obeys untold (λ w. backlight_on w minutes) port unlent unlent (lent panel.old panel.new) result }
{
    panel::set_backlight(panel, minutes);
    done(port)
}

// The minutes stay.
pub fn backlight_off(panel: &mut [u8], port: Port) -> Outcome
    ensures { Obeys untold backlight_off port unlent unlent (lent panel.old panel.new) result }
{
    panel::clear_backlight(panel);
    done(port)
}

// Stored the first time; always answered by what is stored.
pub fn set_serial(panel: &mut [u8], port: Port, a: u8, b: u8) -> Outcome
    ensures { Obeys untold (λ w. set_serial w a b) port unlent unlent (lent panel.old panel.new) result }
{
    let stored = panel::serial_in(panel);
    if stored.on {
        return sending(port, two_bytes(stored.a, stored.b));
    }
    panel::set_serial(panel, a, b);
    sending(port, two_bytes(a, b))
}
