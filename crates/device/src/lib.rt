// The device that is played: its record's bytes, which are all that it is besides its flash, and each field of them.
#![tactic(auto)]

pub mod fields;
pub mod places;

ghost use Rattle.std.specs.Prelude.{◌≡◌, ◌≤◌};

// The bytes that a device is.
pub type Record = [u8; places::LENGTH];

// The numbers of a kind of device: bytes in a sector, sectors of the lent flash, and the first sector of FUS.
#[derive(Clone, Copy)]
pub struct Board {
    pub size: usize,
    pub count: usize,
    pub top: usize,
    pub ghost header: { 84 ≤ size },
    pub ghost small: { size ≤ 65536 },
    pub ghost below: { top ≤ count },
    pub ghost few: { count ≤ 65536 },
}

impl Board {
    ghost use Rattle.device.specs.Kind.{first};

    // The first kind's numbers.
    pub fn first() -> Board
        ensures { result ≡ first }
    {
        Board {
            size: Device::SECTOR_SIZE,
            count: Device::SECTOR_COUNT,
            top: Device::FUS_SECTOR,
        }
    }
}

// Which program runs, and the job: the stack, or FUS, idle or with a job of which some sectors are recorded.
#[derive(Clone, Copy)]
pub enum Mode {
    Stack,
    Idle,
    Upgrade {
        p: u32,
        size: u32,
        version: u32,
        recorded: u32,
    },
    Delete {
        recorded: u32,
    },
}

impl Mode {
    ghost use Rattle.device.specs.Modes.{stack_runs, is_idle, has_job, recorded_in};
    ghost use Rattle.device.specs.Layout.{tag_of, p_of, size_of, version_of};

    // Does the stack run?
    // Kept: a test for each mode, no one function with the mode asked for: each is held to a definition of its own, and reads by its name.
    pub fn stack_runs(self) -> bool
        ensures { result ≡ stack_runs self }
    {
        matches!(self, Mode::Stack)
    }

    // Is FUS idle?
    pub fn is_idle(self) -> bool
        ensures { result ≡ is_idle self }
    {
        matches!(self, Mode::Idle)
    }

    // Is a job under way?
    pub fn has_job(self) -> bool
        ensures { result ≡ has_job self }
    {
        matches!(self, Mode::Upgrade { .. } | Mode::Delete { .. })
    }

    // The sectors that its job has recorded, 0 with no job.
    pub fn recorded(self) -> u32
        ensures { result ≡ recorded_in self }
    {
        match self {
            Mode::Stack | Mode::Idle => 0,
            Mode::Upgrade { recorded, .. } | Mode::Delete { recorded } => recorded,
        }
    }

    // The mode's byte and the four words of its job, 0 where there is no such job.
    fn numbers(self) -> (u8, u32, u32, u32, u32)
        ensures { result ≡ (tag_of self, p_of self, size_of self, version_of self, recorded_in self) }
    {
        match self {
            Mode::Stack => (0, 0, 0, 0, 0),
            Mode::Idle => (1, 0, 0, 0, 0),
            Mode::Upgrade {
                p,
                size,
                version,
                recorded,
            } => (2, p, size, version, recorded),
            Mode::Delete { recorded } => (3, 0, 0, 0, recorded),
        }
    }
}

// Every number and flag of a device, read by name. Kept through power loss: the stack record, the boundary, the mode, how many user keys there
// are, the authentication key's presence and lock, anti-rollback and its floor. Lost: the loaded key (0: none), the mark of the first state
// request, the pending error (0: none), the stores made in the sector that is not recorded yet.
// Kept: `present` beside `version`, `rollback` beside `floor`, 0 for no key and no error, no Option: `encode_decode` is of every record's bytes, also of those with a version and no stack, which `is_sound` refuses.
#[derive(Clone, Copy)]
pub struct Head {
    pub present: bool,
    pub version: u32,
    pub sectors: u32,
    pub boundary: u32,
    pub mode: Mode,
    pub count: u8,
    pub auth: bool,
    pub locked: bool,
    pub rollback: bool,
    pub floor: u32,
    pub loaded: u8,
    pub asked: bool,
    pub error: u8,
    pub made: u8,
}

// A device by value.
#[derive(Clone, Copy)]
pub struct Device {
    pub bytes: Record,
}

impl Device {
    ghost use Rattle.device.specs.Kind.{fresh_device};
    ghost use Rattle.device.specs.Layout.{head_in, encode};

    // bytes in a sector
    pub const SECTOR_SIZE: usize = 4096;
    // sectors of the lent flash
    pub const SECTOR_COUNT: usize = 244;
    // the first sector of FUS
    pub const FUS_SECTOR: usize = 244;

    // No stack, no keys, no job, anti-rollback off, FUS running.
    pub fn fresh() -> Device
        ensures { result.bytes ≡ encode fresh_device }
    {
        let mut bytes = [0; places::LENGTH];
        fields::set_fresh(&mut bytes);
        Device { bytes }
    }

    pub fn head(self) -> Head
        ensures { result ≡ head_in self.bytes }
    {
        fields::read_head(&self.bytes)
    }
}
