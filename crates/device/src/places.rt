// Where the fields of a record stand: ten bytes, eight words, then the arrays. docs/RECORD.md has the table, include/grzelotka_record.h
// the same for C, specs/Layout.antt the same for the definitions, to which every field's contract holds these.
pub const PRESENT: usize = 0;

pub const MODE: usize = 1;

pub const COUNT: usize = 2;

pub const AUTH: usize = 3;

pub const LOCKED: usize = 4;

pub const ROLLBACK: usize = 5;

pub const LOADED: usize = 6;

pub const ASKED: usize = 7;

pub const ERROR: usize = 8;

pub const MADE: usize = 9;

pub const VERSION: usize = 10;

pub const SECTORS: usize = 14;

pub const BOUNDARY: usize = 18;

pub const IMAGE: usize = 22;

pub const SIZE: usize = 26;

pub const IMAGE_VERSION: usize = 30;

pub const RECORDED: usize = 34;

pub const FLOOR: usize = 38;

pub const LOCKS: usize = 42;

pub const KEY: usize = 143;

pub const KINDS: usize = 207;

pub const SIZES: usize = 308;

pub const KEYS: usize = 409;

pub const LENGTH: usize = 4853;

// How many slots there are, the master's among them, and the bytes of one.
pub const SLOTS: usize = 101;

pub const SLOT: usize = 44;
