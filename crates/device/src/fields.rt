// The fields of a record, each read and each set in its place: no other byte is touched. A setter's contract (`Becomes`, `Loses`) is over every
// device that the bytes are, so that setters chain.
#![tactic(auto, unfolding(crate::specs::Layout::encode, crate::specs::Layout::head_bytes, crate::specs::Layout::head_in, crate::specs::Layout::is_head, basics::specs::Choice::pick))]

ghost use Rattle.std.specs.Prelude.{◌≡◌, true, ◌+◌, ◌≤◌, ◌<◌, length, set, get_or};
ghost use Rattle.basics.specs.Words.{byte_at, word_at, word_bytes, put_at};
ghost use Rattle.device.specs.Types as Types;
ghost use Rattle.device.specs.Modes.{has_job, with_recorded};
ghost use Rattle.device.specs.Heads.{with_error, with_loaded, with_count, with_asked, with_auth, with_locked, with_floor, with_mode, with_made, with_stack};
ghost use Rattle.device.specs.Kind.{fresh_device};
ghost use Rattle.device.specs.Whole.{put_key, with_key, with_locks, with_head};
ghost use Rattle.device.specs.Layout.{record_length, mode_in, flag_in, head_in, part, locks_in, auth_in, encode, decode, is_head};
ghost use Rattle.device.specs.Fields.{Held, Becomes, Loses};

use crate::{Device, Head, Mode, Record, places};

// The byte at one of the places.
pub fn byte(rec: &Record, at: usize) -> u8
    requires { at < record_length }
    ensures { result ≡ byte_at rec.now at }
{
    rec[at]
}

// Is the flag set?
pub fn flag(rec: &Record, at: usize) -> bool
    requires { at < record_length }
    ensures { result ≡ flag_in at rec.now }
{
    byte(rec, at) == 1
}

// The word that starts at one of the places.
pub fn word(rec: &Record, at: usize) -> u32
    requires { at + 4 ≤ record_length }
    ensures { result ≡ word_at rec.now at }
{
    basics::word_at(rec, at)
}

// Which program runs, and the job.
// Kept: the mode as the record's byte, 0 to 3, here, in `is_head` and in `Mode::numbers`: C has it so (GRZELOTKA_MODE in include/grzelotka_record.h).
pub fn mode(rec: &Record) -> Mode
    ensures { result ≡ mode_in rec.now }
{
    let recorded = word(rec, places::RECORDED);
    match byte(rec, places::MODE) {
        0 => Mode::Stack,
        1 => Mode::Idle,
        2 => Mode::Upgrade {
            p: word(rec, places::IMAGE),
            size: word(rec, places::SIZE),
            version: word(rec, places::IMAGE_VERSION),
            recorded,
        },
        _ => Mode::Delete { recorded },
    }
}

// What stands at a key's index in one of the arrays of a byte a key, that of the types or of the locks; 0 is the master's.
pub fn slot(rec: &Record, at: usize, index: u8) -> u8
    requires { at + 101 ≤ record_length }
    ensures { result ≡ get_or (part at 101 rec.now) index 0 }
{
    basics::byte_at(&rec[at..at + places::SLOTS], index as usize)
}

// The authentication key.
pub fn auth_key(rec: &Record) -> &[u8]
    ensures { result.now ≡ auth_in rec.now }
{
    &rec[places::KEY..places::KINDS]
}

// The whole head.
pub fn read_head(rec: &Record) -> Head
    ensures { result ≡ head_in rec.now }
{
    Head {
        present: flag(rec, places::PRESENT),
        version: word(rec, places::VERSION),
        sectors: word(rec, places::SECTORS),
        boundary: word(rec, places::BOUNDARY),
        mode: mode(rec),
        count: byte(rec, places::COUNT),
        auth: flag(rec, places::AUTH),
        locked: flag(rec, places::LOCKED),
        rollback: flag(rec, places::ROLLBACK),
        floor: word(rec, places::FLOOR),
        loaded: byte(rec, places::LOADED),
        asked: flag(rec, places::ASKED),
        error: byte(rec, places::ERROR),
        made: byte(rec, places::MADE),
    }
}

// Are the first bytes a head's?
pub fn is_head(rec: &Record) -> bool
    ensures { result ≡ is_head rec.now }
{
    let mode = byte(rec, places::MODE);
    let no_image = (word(rec, places::IMAGE) == 0)
        & (word(rec, places::SIZE) == 0)
        & (word(rec, places::IMAGE_VERSION) == 0);
    (rec[places::PRESENT] <= 1)
        & (rec[places::AUTH] <= 1)
        & (rec[places::LOCKED] <= 1)
        & (rec[places::ROLLBACK] <= 1)
        & (rec[places::ASKED] <= 1)
        & (mode <= 3)
        & ((mode == 2) | no_image)
        & ((2 <= mode) | (word(rec, places::RECORDED) == 0))
}

// Kept: a setter for each of these bytes, set_count to set_made: one by its place would need a change of the head by cases over the places, and is no plainer.
pub fn set_count(rec: &mut Record, count: u8)
    ensures { Becomes rec.old rec.new (with_count count) }
{
    rec[places::COUNT] = count;
}

pub fn set_auth(rec: &mut Record)
    ensures { Becomes rec.old rec.new with_auth }
{
    rec[places::AUTH] = 1;
}

pub fn set_locked(rec: &mut Record)
    ensures { Becomes rec.old rec.new with_locked }
{
    rec[places::LOCKED] = 1;
}

pub fn set_loaded(rec: &mut Record, index: u8)
    ensures { Becomes rec.old rec.new (with_loaded index) }
{
    rec[places::LOADED] = index;
}

pub fn set_asked(rec: &mut Record, asked: bool)
    ensures { Becomes rec.old rec.new (with_asked asked) }
{
    rec[places::ASKED] = asked as u8;
}

pub fn set_error(rec: &mut Record, error: u8)
    ensures { Becomes rec.old rec.new (with_error error) }
{
    rec[places::ERROR] = error;
}

pub fn set_made(rec: &mut Record, made: u8)
    ensures { Becomes rec.old rec.new (with_made made) }
{
    rec[places::MADE] = made;
}

// A word goes to the four bytes from `at` on.
fn put_word(rec: &mut Record, at: usize, word: u32)
    requires { at + 4 ≤ record_length }
    ensures { rec.new ≡ put_at rec.old at (word_bytes word) }
{
    rec[at..at + 4].copy_from_slice(&word.to_le_bytes());
}

// Which program runs, and the job.
pub fn set_mode(rec: &mut Record, mode: Mode)
    ensures { Becomes rec.old rec.new (with_mode mode) }
{
    let (tag, p, size, version, recorded) = mode.numbers();
    rec[places::MODE] = tag;
    put_word(rec, places::IMAGE, p);
    put_word(rec, places::SIZE, size);
    put_word(rec, places::IMAGE_VERSION, version);
    put_word(rec, places::RECORDED, recorded);
}

// The sectors recorded, of a record with a job.
pub fn set_recorded(rec: &mut Record, recorded: u32)
    ensures { (d : Types.Device) → has_job d.head.mode ≡ true → rec.old ≡ encode d → rec.new ≡ encode (with_head (with_mode (with_recorded recorded d.head.mode) d.head) d) }
{
    put_word(rec, places::RECORDED, recorded);
}

// Anti-rollback is on, from this floor on.
pub fn set_floor(rec: &mut Record, floor: u32)
    ensures { Becomes rec.old rec.new (with_floor floor) }
{
    put_word(rec, places::FLOOR, floor);
    rec[places::ROLLBACK] = 1;
}

// The stack, and where it begins.
pub fn set_stack(rec: &mut Record, present: bool, version: u32, sectors: u32, boundary: u32)
    ensures { Becomes rec.old rec.new (λ h. with_stack present version sectors boundary h.floor h.mode h) }
{
    rec[places::PRESENT] = present as u8;
    put_word(rec, places::VERSION, version);
    put_word(rec, places::SECTORS, sectors);
    put_word(rec, places::BOUNDARY, boundary);
}

// What is lost is lost.
pub fn lose(rec: &mut Record)
    ensures { Loses rec.old rec.new }
{
    rec[places::LOCKS..places::KEY].fill(0);
    rec[places::LOADED] = 0;
    rec[places::ASKED] = 0;
    rec[places::ERROR] = 0;
    rec[places::MADE] = 0;
}

// A key into its slot, with its type and its size.
// Kept: `Held` is a clause here and in the commands, and no struct around the lent record: such a struct would owe, in each function, that it holds the same bytes still (a clause for the one that goes), and `Held` again after each setter.
pub fn set_key(rec: &mut Record, slot: u8, kind: u8, key: &[u8])
    requires held { Held rec.old }
    requires slot_bound { (slot ≤ 100) × (length key.now ≤ 44) }
    ensures { rec.new ≡ encode (put_key slot kind key.now (decode rec.old)) }
{
    let slot = slot as usize;
    let at = slot * places::SLOT;
    rec[places::KINDS..places::SIZES][slot] = kind;
    rec[places::SIZES..places::KEYS][slot] = key.len() as u8;
    rec[places::KEYS..][at..at + key.len()].copy_from_slice(key);
}

// The authentication key.
pub fn set_auth_key(rec: &mut Record, key: &[u8])
    requires held { Held rec.old }
    requires key_len { length key.now ≡ 64 }
    ensures { rec.new ≡ encode (with_key key.now (decode rec.old)) }
{
    rec[places::KEY..places::KINDS].copy_from_slice(key);
}

// A key's lock.
pub fn set_lock(rec: &mut Record, slot: u8)
    requires { Held rec.old }
    ensures { rec.new ≡ encode (with_locks (set (locks_in rec.old) slot 1) (decode rec.old)) }
{
    let slot = slot as usize;
    if slot < places::SLOTS {
        rec[places::LOCKS..places::KEY][slot] = 1;
    }
}

// A fresh device: no stack, no keys, no job, anti-rollback off, FUS running.
pub fn set_fresh(rec: &mut Record)
    ensures { rec.new ≡ encode fresh_device }
{
    rec.fill(0);
    set_stack(rec, false, 0xFFFF_FFFF, 0, Device::FUS_SECTOR as u32);
    set_mode(rec, Mode::Idle);
}
