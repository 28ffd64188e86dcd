// The user keys: STORE, LOAD, LOCK and UNLOAD on the record's bytes, with what each is answered.
// Kept: `Held` is a clause of each command and no struct around the lent record: such a struct would owe, in each function, that it holds the same bytes still (a clause for the one that goes), and `Held` again after each setter.
#![tactic(auto, using(device::proofs::Laws::on_record, crate::proofs::Laws::small), unfolding(device::specs::Layout::decode, device::specs::Layout::head_in, basics::specs::Choice::pick, crate::specs::Keys::store_key, crate::specs::Keys::load_key))]

ghost use Rattle.std.specs.Prelude.{◌≡◌, length};
ghost use Rattle.device.specs.Layout.{head_in};
ghost use Rattle.device.specs.Fields.{Held, look_in};
ghost use Rattle.device.specs.Done.{done, stepped, Steps};
ghost use Rattle.keys.specs.Keys.{key_lawful, kind_of, type_of, store_key, stored_key, load_key, lock_key, unload_key};

use answer::{Answer, Failure};
use device::{Record, fields, places};

// The types of a user key, each with the byte that stands for it.
#[derive(Clone, Copy, PartialEq, Eq)]
pub enum KeyType {
    Simple = 1,
    Master = 2,
    Encrypted = 3,
}

impl KeyType {
    // May a key of this type have this many bytes?
    pub fn allows(self, size: usize) -> bool
        ensures { result ≡ key_lawful (kind_of self) size }
    {
        match self {
            KeyType::Simple | KeyType::Master => size == 16 || size == 32,
            KeyType::Encrypted => size == 28 || size == 44,
        }
    }
}

impl From<KeyType> for u8 {
    ghost from_gives = { λ key_type kind. kind ≡ kind_of key_type };

    fn from(key_type: KeyType) -> u8 {
        key_type as u8
    }
}

impl TryFrom<u8> for KeyType {
    type Error = Failure;

    ghost try_from_gives = { λ kind key_type. key_type ≡ type_of kind };

    #[tactic(auto, unfolding(crate::specs::Keys::type_of, basics::specs::Choice::pick))]
    fn try_from(kind: u8) -> Result<Self, Failure> {
        match kind {
            1 => Ok(KeyType::Simple),
            2 => Ok(KeyType::Master),
            3 => Ok(KeyType::Encrypted),
            _ => Err(Failure::BadType),
        }
    }
}

// May a key of this type have this many bytes?
#[tactic(auto, unfolding(crate::specs::Keys::type_of, basics::specs::Choice::pick))]
pub fn key_lawful(kind: u8, size: usize) -> bool
    ensures { result ≡ key_lawful kind size }
{
    KeyType::try_from(kind).is_ok_and(|key_type| key_type.allows(size))
}

// The master goes to index 0, the others to 1 to 100 in the order of storing.
pub fn store_key(rec: &mut Record, kind: u8, key: &[u8]) -> Answer
    requires { Held rec.old }
    ensures { done result rec.new ≡ stepped (store_key (head_in rec.old) (look_in rec.old kind) kind (length key.now)) key.now rec.old }
{
    let Ok(key_type) = KeyType::try_from(kind) else {
        return commands::failed(rec, Failure::BadType);
    };
    if !key_type.allows(key.len()) {
        return commands::failed(rec, Failure::BadSize);
    }
    if key_type == KeyType::Master {
        if fields::slot(rec, places::KINDS, 0) == u8::from(KeyType::Master) {
            return commands::failed(rec, Failure::SecondMaster);
        }
        fields::set_key(rec, 0, kind, key);
        fields::set_error(rec, 0);
        return Answer::Stored { index: 0 };
    }
    let count = fields::byte(rec, places::COUNT);
    if 100 <= count {
        return commands::failed(rec, Failure::StoreFull);
    }
    let index = count + 1;
    fields::set_key(rec, index, kind, key);
    fields::set_count(rec, index);
    fields::set_error(rec, 0);
    Answer::Stored { index }
}

// Is the index that of a stored user key?
fn stored(rec: &Record, index: u8) -> bool
    ensures { result ≡ stored_key (head_in rec.now) index }
{
    1 <= index && index <= fields::byte(rec, places::COUNT)
}

// The key replaces any that is loaded.
pub fn load_key(rec: &mut Record, index: u8) -> Answer
    requires { Held rec.old }
    ensures { Steps rec.old rec.new result (load_key (head_in rec.old) (look_in rec.old index) index) }
{
    if !stored(rec, index) {
        return commands::failed(rec, Failure::NotStored);
    }
    if fields::slot(rec, places::LOCKS, index) != 0 {
        return commands::failed(rec, Failure::KeyLocked);
    }
    let encrypted = fields::slot(rec, places::KINDS, index) == u8::from(KeyType::Encrypted);
    if !encrypted | (fields::slot(rec, places::KINDS, 0) == u8::from(KeyType::Master)) {
        fields::set_loaded(rec, index);
        fields::set_error(rec, 0);
        return Answer::Accepted;
    }
    commands::failed(rec, Failure::NoMaster)
}

// A loaded key stays loaded.
pub fn lock_key(rec: &mut Record, index: u8) -> Answer
    requires { Held rec.old }
    ensures { Steps rec.old rec.new result (lock_key (head_in rec.old) index) }
{
    if stored(rec, index) {
        fields::set_lock(rec, index);
        fields::set_error(rec, 0);
        return Answer::Accepted;
    }
    commands::failed(rec, Failure::NotStored)
}

// With no key loaded there is nothing to unload, not at 0 either.
pub fn unload_key(rec: &mut Record, index: u8) -> Answer
    requires { Held rec.old }
    ensures { Steps rec.old rec.new result (unload_key (head_in rec.old) index) }
{
    if (1 <= index) & (index == fields::byte(rec, places::LOADED)) {
        fields::set_loaded(rec, 0);
        fields::set_error(rec, 0);
        return Answer::Accepted;
    }
    commands::failed(rec, Failure::NotLoaded)
}
