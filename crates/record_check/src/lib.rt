// Whether a record of the state may be accepted: each part is tested where it stands, and no state is made of it.
#![tactic(auto)]

mod checking;

ghost use Rattle.std.specs.Prelude.{◌≡◌};
ghost use Rattle.record.specs.Record.{recognised, sound_record};

use canvas::is_height;
use checking::Record;
use record::{RECORD, config_in, height_in};
use state::is_edition;

// Whether it is of the right length, with a height that there is.
#[tactic(auto, unfolding(record::specs::Record::recognised))]
pub fn is_recognised(r: &[u8]) -> bool
    ensures { result ≡ recognised r.now }
{
    r.len() == RECORD && is_height(u32::from(height_in(r)))
}

// Whether it is the record of a sound state, with thresholds below 80 and as the layout has it.
#[tactic(auto, using(crate::proofs::Deciding::recognised_long, crate::proofs::Deciding::not_recognised, crate::proofs::Deciding::record_is))]
pub fn is_record(r: &[u8]) -> bool
    ensures { result ≡ sound_record r.now }
{
    if !is_recognised(r) {
        return false;
    }
    let config = config_in(r);
    let record = Record { bytes: r };
    is_edition(u32::from(config.edition)) && record.is_port() && record.is_panel(config.height)
}
