// Commands of files: upload, delete, purge.
// What sets a part of the port is never in line, as `refused` (outcome) is not.
#![tactic(auto)]

ghost use Rattle.std.specs.Prelude.{◌≡◌, ◌+◌, ◌-◌, ◌%◌, ◌||◌, nat_lt};
ghost use Rattle.directory.specs.Directory.{entries, has_file};
ghost use Rattle.files.specs.Files.{unused_of, entry, appended, deleted};
ghost use Rattle.state.specs.State.{with_used};
ghost use Rattle.record.specs.Reading.{panel_of};
ghost use Rattle.panel.specs.Revised.{revised};
ghost use Rattle.rules.specs.Files.{in_use, kind_of, lacks_space, begin_upload, upload_data, upload_waits, delete_file, purge};
ghost use Rattle.rules.specs.Sound.{highest};
ghost use Rattle.outcome.specs.Contract.{unlent, lent, untold, told, told_edition, Obeys};
ghost use Rattle.refusals.specs.Refusals.{number_of};
ghost use Rattle.storage.specs.Storage.{telling_of};

use directory::{
    BUILT_IN_FONT, FONT, MAX_NUMBER, MAX_RECORDS, NEWER_BITMAP, NEWER_FONT, Totals, find,
    record_length, tally,
};
use files::{append, delete, store_byte, unused};
use outcome::{
    Outcome, done, in_phase, one_byte, put_text, refuse, refused, refused_in_line, sending,
    two_bytes,
};
use panel::{set_used, used_in};
use refusals::Refusal;
use state::{NEWER, PATIENCE, Phase, Port, Text, start_text};

// The replies of the upload's handshake, and the host's confirmation.
const WELCOME: u8 = 1;

const TURNED_AWAY: u8 = 8;

const CONFIRM: u8 = 1;

// The reply to an upload that is dropped: the prefix, and the message that time is up.
const PREFIX: u8 = 254;

const TIMED_OUT: u8 = 212;

// No store has room for so many bytes.
const TOO_LARGE: u32 = 65536;

// The highest number that the older edition can name.
const OLDER_HIGHEST: u16 = 255;

// Types of a delete are numbers below this; the sort is one more.
const TYPES: u8 = 2;

// The bytes behind a purge's code.
const PURGE_FIRST: u8 = 89;

const PURGE_SECOND: u8 = 33;

// Whether the directory has a file of this sort and number.
pub fn is_stored(store: &[u8], sort: u8, number: u16) -> bool
    ensures { result ≡ has_file (entries store.now) sort number }
{
    find(store, sort, number).is_some()
}

// Font 1 always is.
fn is_in_use(store: &[u8], sort: u8, number: u16) -> bool
    ensures { result ≡ in_use store.now sort number }
{
    (sort == FONT && number == BUILT_IN_FONT) || is_stored(store, sort, number)
}

// The kind of record that an edition writes for a sort.
fn kind_of(edition: u8, sort: u8) -> u8
    ensures { result ≡ kind_of edition sort }
{
    if edition != NEWER {
        return sort;
    }
    if sort == FONT {
        NEWER_FONT
    } else {
        NEWER_BITMAP
    }
}

// With records up to byte `end`, and so many bytes unused.
#[tactic(auto, unfolding(rules::specs::Files::lacks_space))]
fn lacks_space(end: usize, unused: usize, kind: u8, size: u32) -> bool
    ensures { result ≡ lacks_space end unused kind size }
{
    size == 0
        || MAX_RECORDS - record_length(kind) < end
        || unused < size as usize
        || TOO_LARGE <= size
}

// The highest number of an upload.
fn highest(edition: u8) -> u16
    ensures { result ≡ highest edition }
{
    if edition == NEWER {
        MAX_NUMBER
    } else {
        OLDER_HIGHEST
    }
}

// Whether an upload under way would now be refused, by these totals of the directory.
pub fn is_turned_away(
    store: &[u8],
    totals: Totals,
    edition: u8,
    sort: u8,
    number: u16,
    size: u16,
) -> bool
    ensures { result ≡ (nat_lt (highest edition) number || in_use store.now sort number || lacks_space totals.end (unused_of store.now totals.used) (kind_of edition sort) size) }
{
    let free = unused(store, totals.used);
    highest(edition) < number
        || is_in_use(store, sort, number)
        || lacks_space(totals.end, free, kind_of(edition, sort), u32::from(size))
}

// A refusal that is answered.
fn telling(port: Port, refusal: Refusal) -> Outcome
    ensures { result ≡ telling_of port (number_of refusal) }
{
    sending(refuse(port, refusal), one_byte(TURNED_AWAY))
}

#[inline(never)]
pub fn begin_upload(
    store: &[u8],
    panel: &[u8],
    port: Port,
    edition: u8,
    sort: u8,
    number: u16,
    size: u32,
) -> Outcome
    ensures { Obeys (told_edition edition) (λ w. begin_upload w sort number size) port unlent (lent store.now store.now) (lent panel.now panel.now) result }
{
    if number > MAX_NUMBER {
        return telling(port, Refusal::NumberOutOfRange);
    }
    if is_in_use(store, sort, number) {
        return telling(port, Refusal::NumberInUse);
    }
    let end = tally(store).end;
    let free = unused(store, usize::from(used_in(panel)));
    if lacks_space(end, free, kind_of(edition, sort), size) {
        return telling(port, Refusal::NoSpace);
    }
    let next = in_phase(
        port,
        Phase::Upload {
            sort,
            number,
            size: size as u16,
            stored: 0,
            waiting: false,
            byte: 0,
            waited: 0,
        },
    );
    sending(next, one_byte(WELCOME))
}

// The record of a whole file, whose size is now used too.
fn close_upload(store: &mut [u8], panel: &mut [u8], used: u16, kind: u8, number: u16, size: u16)
    ensures { (store.new ≡ appended store.old (entry kind number size)) × (panel.new ≡ revised panel.old (with_used (panel_of panel.old) ((used + size) % 65536))) }
{
    append(store, kind, number, u32::from(size));
    set_used(panel, used.wrapping_add(size));
}

// A data byte is echoed and waits; confirmed, it is stored at the next free byte, and at the last one the record is written and the file's size is used.
pub fn upload_data(
    store: &mut [u8],
    panel: &mut [u8],
    port: Port,
    edition: u8,
    sort: u8,
    number: u16,
    size: u16,
    stored: u16,
    waiting: bool,
    held: u8,
    byte: u8,
) -> Outcome
    ensures { Obeys (told_edition edition) (λ w. upload_data w sort number size stored waiting held byte) port unlent (lent store.old store.new) (lent panel.old panel.new) result }
{
    if !waiting {
        let next = in_phase(
            port,
            Phase::Upload {
                sort,
                number,
                size,
                stored,
                waiting: true,
                byte,
                waited: 0,
            },
        );
        return sending(next, one_byte(byte));
    }
    if byte != CONFIRM {
        return refused_in_line(port, Refusal::UploadAborted);
    }
    let used = used_in(panel);
    store_byte(store, used, stored, held);
    if u32::from(stored) + 1 < u32::from(size) {
        let next = in_phase(
            port,
            Phase::Upload {
                sort,
                number,
                size,
                stored: stored + 1,
                waiting: false,
                byte: 0,
                waited: 0,
            },
        );
        return done(next);
    }
    close_upload(store, panel, used, kind_of(edition, sort), number, size);
    done(in_phase(port, Phase::Idle))
}

// Milliseconds pass: they add up, and an upload that has waited too long is dropped.
pub fn upload_waits(
    port: Port,
    sort: u8,
    number: u16,
    size: u16,
    stored: u16,
    waiting: bool,
    held: u8,
    waited: u16,
    milliseconds: u32,
) -> Outcome
    ensures { Obeys untold (λ w. upload_waits w sort number size stored waiting held waited milliseconds) port unlent unlent unlent result }
{
    let sum = u64::from(waited) + u64::from(milliseconds);
    if sum >= u64::from(PATIENCE) {
        return sending(
            refuse(port, Refusal::UploadAborted),
            two_bytes(PREFIX, TIMED_OUT),
        );
    }
    done(in_phase(
        port,
        Phase::Upload {
            sort,
            number,
            size,
            stored,
            waiting,
            byte: held,
            waited: sum as u16,
        },
    ))
}

// What is used without a file of so many bytes.
fn without(used: u16, size: usize) -> u16
    ensures { result ≡ used - size }
{
    usize::from(used).saturating_sub(size) as u16
}

// A file of so many bytes taken out, whose room is free again.
fn take_out(store: &mut [u8], panel: &mut [u8], sort: u8, number: u16, size: usize)
    ensures { (store.new ≡ deleted store.old sort number) × (panel.new ≡ revised panel.old (with_used (panel_of panel.old) ((panel_of panel.old).used - size))) }
{
    delete(store, sort, number);
    set_used(panel, without(used_in(panel), size));
}

// The room of the file is free; a deleted font that was the current one leaves font 1.
#[inline(never)]
pub fn delete_file(
    store: &mut [u8],
    panel: &mut [u8],
    port: Port,
    of_type: u8,
    number: u16,
) -> Outcome
    ensures { Obeys untold (λ w. delete_file w of_type number) port unlent (lent store.old store.new) (lent panel.old panel.new) result }
{
    if of_type >= TYPES {
        return refused(port, Refusal::UnknownType);
    }
    if number > MAX_NUMBER {
        return refused(port, Refusal::NumberOutOfRange);
    }
    let sort = of_type + 1;
    let Some(found) = find(store, sort, number) else {
        return refused(port, Refusal::NoSuchFile);
    };
    take_out(store, panel, sort, number, found.size);
    if sort == FONT && number == port.text.font {
        let text = Text {
            font: BUILT_IN_FONT,
            ..port.text
        };
        return done(put_text(port, text));
    }
    done(port)
}

// Nothing is used, text settings go back to the start, and the text point home.
#[inline(never)]
pub fn purge(
    store: &mut [u8],
    panel: &mut [u8],
    port: Port,
    height: u8,
    first: u8,
    second: u8,
) -> Outcome
    ensures { Obeys (told height) (λ w. purge w first second) port unlent (lent store.old store.new) (lent panel.old panel.new) result }
{
    if first != PURGE_FIRST || second != PURGE_SECOND {
        return refused(port, Refusal::UnknownType);
    }
    files::purge(store);
    set_used(panel, 0);
    done(put_text(port, start_text(height)))
}
