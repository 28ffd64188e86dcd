// Is a device sound?
#![tactic(auto)]

ghost use Rattle.std.specs.Prelude.{◌≡◌, ◌≤◌, ◌<◌, ltb, length};
ghost use Rattle.basics.specs.Choice.{pick};
ghost use Rattle.plan.specs.Stores.{plan_of};
ghost use Rattle.device.specs.Layout.{kinds_in, sizes_in, locks_in};
ghost use Rattle.soundness.specs.Sound.{job_of, stack_sound, parts_sound, error_sound, progress_sound, mode_sound, head_sound, none_in, user_in, first_in, all_below, place_test, users_end, slots_sound, loaded_sound, keys_sound, sound_record};

use device::{Head, Mode, Record, fields, places};
use keys::KeyType;
use plan::{Job, Placed};

fn stack_sound(h: Head, top: usize) -> bool
    ensures { result ≡ stack_sound top h }
{
    let boundary = h.boundary as usize;
    (1 <= boundary)
        & (boundary <= top)
        & (h.present == (boundary != top))
        & (h.present == (h.version != 0xFFFF_FFFF))
        & (h.sectors as usize + boundary == top)
}

fn parts_sound(h: Head, runs: bool) -> bool
    ensures { result ≡ parts_sound h runs }
{
    (!h.locked | h.auth)
        & (!h.asked | runs)
        & (h.rollback | (h.floor == 0))
        & (h.count <= 100)
        & (h.loaded <= h.count)
}

fn error_sound(error: u8, idle: bool) -> bool
    ensures { result ≡ error_sound error idle }
{
    error == 0 || (idle & matches!(error, 0x01..=0x04 | 0x0A | 0x11 | 0xFF))
}

// How many stores may be made in the sector that is recorded next.
#[tactic(auto, unfolding(basics::specs::Choice::pick))]
fn may_make(recorded: usize, moved: usize, steps: usize) -> u8
    ensures { result ≡ pick (ltb recorded moved) 2 (pick (ltb recorded steps) 1 0) }
{
    if recorded < moved {
        return 2;
    }
    if recorded < steps {
        return 1;
    }
    0
}

fn progress_sound(placed: Placed, recorded: u32, made: u8) -> bool
    ensures { result ≡ progress_sound (plan_of placed.size placed.top placed.job) recorded made }
{
    let moved = placed.blocks();
    let steps = moved + placed.cleared_count();
    let done = recorded as usize;
    (done <= steps) & (made <= may_make(done, moved, steps))
}

// The job that a mode has.
pub fn job_of(boundary: usize, mode: Mode) -> Job
    ensures job { result ≡ job_of boundary mode }
    ensures small { result.size < 4294967296 }
{
    match mode {
        Mode::Upgrade { p, size, .. } => Job {
            p: p as usize,
            size: size as usize,
            boundary,
        },
        _ => Job {
            p: 0,
            size: 0,
            boundary,
        },
    }
}

// What the mode says; the job is the mode's.
fn mode_sound(placed: Placed, h: Head) -> bool
    requires { placed.job ≡ job_of h.boundary h.mode }
    ensures { result ≡ mode_sound placed.size placed.top h.mode h.present h.boundary h.made }
{
    let job = placed.job;
    match h.mode {
        Mode::Stack => h.present & (h.made == 0),
        Mode::Idle => h.made == 0,
        Mode::Upgrade {
            p: _,
            size,
            version,
            recorded,
        } => {
            ((84 <= size) & (size % 4 == 0))
                & (version != 0xFFFF_FFFF)
                & (job.p + placed.blocks() + 1 <= job.boundary)
                & progress_sound(placed, recorded, h.made)
        }
        Mode::Delete { recorded } => h.present & progress_sound(placed, recorded, h.made),
    }
}

// All that the head says; the job is the mode's.
#[tactic(auto, unfolding(crate::specs::Sound::head_sound))]
fn head_sound(placed: Placed, h: Head) -> bool
    requires { placed.job ≡ job_of h.boundary h.mode }
    ensures { result ≡ head_sound placed.size placed.top h }
{
    // two tests end early, this one and that of the error: with more of them it is no faster
    (stack_sound(h, placed.top) & parts_sound(h, h.mode.stack_runs()))
        && (error_sound(h.error, h.mode.is_idle()) & mode_sound(placed, h))
}

// Kept: a slot's three bytes side by side, and no struct: `none_in`, `user_in` and `first_in` of specs/Sound.antt take them so.
fn none_in(kind: u8, size: u8, lock: u8) -> bool
    ensures { result ≡ none_in kind size lock }
{
    (kind == 0) & (size == 0) & (lock == 0)
}

// By the least size of the type, which is fewer tests than `key_lawful`.
fn user_in(kind: u8, size: u8, lock: u8) -> bool
    ensures { result ≡ user_in kind size lock }
{
    let least = if kind == KeyType::Encrypted as u8 {
        28
    } else {
        16
    };
    ((kind == KeyType::Simple as u8) | (kind == KeyType::Encrypted as u8))
        & ((size == least) | (size == least + 16))
        & (lock <= 1)
}

// The master's slot.
fn first_in(kind: u8, size: u8, lock: u8) -> bool
    ensures { result ≡ first_in kind size lock }
{
    let lawful = keys::key_lawful(kind, size as usize);
    none_in(kind, size, lock) | ((kind == KeyType::Master as u8) & lawful & (lock == 0))
}

// Slots `from` to `to` - 1 of a record: those below `end` hold user keys, the others nothing. No test ends the loop, and a byte of its own
// counts twice the slot, so it runs in lanes of bytes.
// Kept: three arrays, as C has the record, and a second index, counted by hand: without it there are no lanes, and a restart takes 2.0 times plain C's time in place of 1.0.
fn places_in(rec: &Record, from: usize, to: usize, end: usize) -> bool
    requires { ((from ≤ to) × (to ≤ 101)) × (end ≤ 101) }
    ensures { result ≡ all_below to (place_test from end (kinds_in rec.now) (sizes_in rec.now) (locks_in rec.now)) }
{
    let twice = (end as u8) * 2;
    let mut ok = true;
    let mut n = (from as u8) * 2;
    for i in from..to {
        let below = n < twice;
        let kind = rec[places::KINDS + i];
        let size = rec[places::SIZES + i];
        let lock = rec[places::LOCKS + i];
        ok = ok & ((below & user_in(kind, size, lock)) | (!below & none_in(kind, size, lock)));
        n += 2;
    }
    ok
}

#[tactic(auto, unfolding(basics::specs::Choice::pick))]
fn users_end(count: u8) -> usize
    ensures value { result ≡ users_end count }
    ensures lower_bound { (1 ≤ result) × (result ≤ 101) }
{
    (count as usize + 1).min(101)
}

// The slots of a record with so many user keys: 96 in six lanes, then the last 16, some of them again.
fn slots_sound(rec: &Record, count: u8) -> bool
    ensures { result ≡ slots_sound count (kinds_in rec.now) (sizes_in rec.now) (locks_in rec.now) }
{
    let end = users_end(count);
    first_in(rec[places::KINDS], rec[places::SIZES], rec[places::LOCKS])
        & places_in(rec, 1, 97, end)
        & places_in(rec, 85, 101, end)
}

fn loaded_sound(kind: u8, master: u8) -> bool
    ensures { result ≡ loaded_sound kind master }
{
    (kind != KeyType::Encrypted as u8) | (master == KeyType::Master as u8)
}

// All that the arrays say.
fn keys_sound(rec: &Record, count: u8, loaded: u8) -> bool
    ensures { result ≡ keys_sound count loaded (kinds_in rec.now) (sizes_in rec.now) (locks_in rec.now) }
{
    let kind = fields::slot(rec, places::KINDS, loaded);
    let master = fields::slot(rec, places::KINDS, 0);
    slots_sound(rec, count) & loaded_sound(kind, master)
}

// Are these the bytes of a sound device? `size` is the size of a sector, `top` the first sector of FUS.
// Kept: the two numbers and no `Board`, which would ask more of them: `is_sound` is promised for any.
pub fn is_sound(rec: &[u8], size: usize, top: usize) -> bool
    requires size_nonzero { (0 < size) × (size ≤ 65536) }
    requires top_bound { top ≤ 65536 }
    ensures { result ≡ sound_record size top rec.now }
{
    let Some(rec) = rec.as_array() else {
        return false;
    };
    let h = fields::read_head(rec);
    let job = job_of(h.boundary as usize, h.mode);
    fields::is_head(rec)
        && (head_sound(Placed { job, size, top }, h) && keys_sound(rec, h.count, h.loaded))
}
