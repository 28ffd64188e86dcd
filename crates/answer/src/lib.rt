// What FUS answers to a lawful command, and why it fails one.
#![tactic(auto)]

ghost use Rattle.std.specs.Prelude.{◌≡◌};
ghost use Rattle.answer.specs.Answers.{error_of, status_of, payload_of, reason_of, reason_in, number_of, told};

use std::fmt;

// Every way in which a lawful command fails.
#[derive(Clone, Copy)]
pub enum Failure {
    // the stack runs, or a job is under way: no error becomes pending
    StackRuns,
    JobUnderWay,
    // FW_DELETE, START_WS
    NoStack,
    // FW_UPGRADE: checks 1 to 7
    NoImage,
    BadHeader,
    NoRoom,
    WrongSum,
    NotSealed,
    WrongTag,
    UnderFloor,
    // UPDATE_AUTH_KEY, LOCK_AUTH_KEY
    AuthLocked,
    NoAuthKey,
    // STORE_USR_KEY
    BadType,
    BadSize,
    SecondMaster,
    StoreFull,
    // LOAD, LOCK and UNLOAD_USR_KEY
    NotStored,
    KeyLocked,
    NoMaster,
    NotLoaded,
}

// Why a key was turned down, with its number.
#[derive(Clone, Copy, PartialEq, Eq)]
pub enum Reason {
    BadType = 1,
    BadSize = 2,
    SecondMaster = 3,
    StoreFull = 4,
    NotStored = 5,
    KeyLocked = 6,
    NoMaster = 7,
    NotLoaded = 8,
}

// What the seven checks find, one of three things: an image at sector p that is taken, a check that fails, or one that fails and has sector p erased.
#[derive(Clone, Copy)]
pub enum Checked {
    Good { p: u32, size: u32, version: u32 },
    Fails(Failure),
    Erases { failure: Failure, p: u32 },
}

// What a lawful command is answered.
#[derive(Clone, Copy)]
pub enum Answer {
    // GET_STATE
    State { state: u8, error: u8 },
    // STORE_USR_KEY, accepted
    Stored { index: u8 },
    // any other command, accepted
    Accepted,
    Failed(Failure),
}

impl From<Reason> for u8 {
    ghost from_gives = { λ reason n. n ≡ number_of reason };

    fn from(reason: Reason) -> u8 {
        reason as u8
    }
}

impl fmt::Display for Reason {
    ghost use Rattle.std.specs.Prelude.{Some};
    ghost use Rattle.answer.specs.Words.{reason_text};

    ghost output = { λ reason. Some (reason_text reason) };

    fn fmt<W: fmt::Write>(&self, f: &mut fmt::Formatter<W>) -> fmt::Result {
        f.write_str(match self {
            Reason::BadType => "bad type",
            Reason::BadSize => "bad size",
            Reason::SecondMaster => "second master",
            Reason::StoreFull => "store full",
            Reason::NotStored => "not stored",
            Reason::KeyLocked => "locked",
            Reason::NoMaster => "no master",
            Reason::NotLoaded => "not loaded",
        })
    }
}

impl Failure {
    // The error that it makes pending; 0 where it makes none.
    // Kept: 0 and no Option: its one caller stores it as the record's byte, where 0 is none, and would take an Option apart there again.
    pub fn error(self) -> u8
        ensures { result ≡ error_of self }
    {
        match self {
            Failure::StackRuns | Failure::JobUnderWay => 0,
            Failure::NoStack | Failure::NoImage => 0x01,
            Failure::BadHeader | Failure::WrongSum => 0x02,
            Failure::NotSealed | Failure::WrongTag => 0x03,
            Failure::NoRoom => 0x04,
            Failure::AuthLocked => 0x0A,
            Failure::UnderFloor => 0x11,
            Failure::NoAuthKey
            | Failure::BadType
            | Failure::BadSize
            | Failure::SecondMaster
            | Failure::StoreFull
            | Failure::NotStored
            | Failure::KeyLocked
            | Failure::NoMaster
            | Failure::NotLoaded => 0xFF,
        }
    }

    // Why a key was turned down, where one was.
    pub fn reason(self) -> Option<Reason>
        ensures { told result ≡ reason_of self }
    {
        match self {
            Failure::BadType => Some(Reason::BadType),
            Failure::BadSize => Some(Reason::BadSize),
            Failure::SecondMaster => Some(Reason::SecondMaster),
            Failure::StoreFull => Some(Reason::StoreFull),
            Failure::NotStored => Some(Reason::NotStored),
            Failure::KeyLocked => Some(Reason::KeyLocked),
            Failure::NoMaster => Some(Reason::NoMaster),
            Failure::NotLoaded => Some(Reason::NotLoaded),
            _ => None,
        }
    }
}

impl Answer {
    // The status byte of the response.
    pub fn status(self) -> u8
        ensures { result ≡ status_of self }
    {
        match self {
            Answer::State { state, error: _ } => state,
            Answer::Stored { index: _ } | Answer::Accepted => 0x00,
            Answer::Failed(_) => 0x01,
        }
    }

    // Its payload byte, for the commands that have one.
    pub fn payload(self) -> u8
        ensures { result ≡ payload_of self }
    {
        match self {
            Answer::State { state: _, error } => error,
            Answer::Stored { index } => index,
            Answer::Accepted => 0x00,
            Answer::Failed(_) => 0xFF,
        }
    }

    // The reason beside it.
    pub fn reason(self) -> Option<Reason>
        ensures { told result ≡ reason_in self }
    {
        match self {
            Answer::Failed(failure) => failure.reason(),
            _ => None,
        }
    }
}
