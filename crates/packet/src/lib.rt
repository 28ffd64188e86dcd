// Packets: reading a command, and why a call is refused.
#![tactic(auto)]

ghost use Rattle.std.specs.Prelude.{◌≡◌};
ghost use Rattle.packet.specs.Packets.{number_of, opcode_of, command_of, known, length_allowed, inner_allowed, judged, read_of};

// Why a call is refused, with its number.
#[derive(Clone, Copy, PartialEq, Eq)]
pub enum Refusal {
    UnsoundRecord = 1,
    FlashLength = 2,
    ReplyShort = 3,
    PacketShort = 4,
    NoCommand = 5,
    LengthDiffers = 6,
    OpcodeUnlisted = 7,
    PayloadLength = 8,
    InnerSize = 9,
    FillerLength = 10,
}

// The lawful commands, with their opcodes.
#[derive(Clone, Copy, PartialEq, Eq)]
pub enum Command {
    GetState = 0xFC52,
    FwUpgrade = 0xFC54,
    FwDelete = 0xFC55,
    UpdateAuthKey = 0xFC56,
    LockAuthKey = 0xFC57,
    StoreUsrKey = 0xFC58,
    LoadUsrKey = 0xFC59,
    StartWs = 0xFC5A,
    LockUsrKey = 0xFC5D,
    UnloadUsrKey = 0xFC5E,
    ActivateAntirollback = 0xFC5F,
}

// A packet that is taken: a lawful command, and the length of its payload.
#[derive(Clone, Copy)]
pub struct Request {
    pub command: Command,
    pub length: u8,
}

impl From<Refusal> for u8 {
    ghost from_gives = { λ refusal n. n ≡ number_of refusal };

    fn from(refusal: Refusal) -> u8 {
        refusal as u8
    }
}

impl From<Command> for u16 {
    ghost from_gives = { λ command n. n ≡ opcode_of command };

    fn from(command: Command) -> u16 {
        command as u16
    }
}

// An opcode that no command has is refusal 7.
impl TryFrom<u16> for Command {
    type Error = Refusal;

    ghost try_from_gives = { λ opcode command. command ≡ known (command_of opcode) };

    #[tactic(auto, unfolding(crate::specs::Packets::command_of, basics::specs::Choice::pick))]
    fn try_from(opcode: u16) -> Result<Self, Refusal> {
        match opcode {
            0xFC52 => Ok(Command::GetState),
            0xFC54 => Ok(Command::FwUpgrade),
            0xFC55 => Ok(Command::FwDelete),
            0xFC56 => Ok(Command::UpdateAuthKey),
            0xFC57 => Ok(Command::LockAuthKey),
            0xFC58 => Ok(Command::StoreUsrKey),
            0xFC59 => Ok(Command::LoadUsrKey),
            0xFC5A => Ok(Command::StartWs),
            0xFC5D => Ok(Command::LockUsrKey),
            0xFC5E => Ok(Command::UnloadUsrKey),
            0xFC5F => Ok(Command::ActivateAntirollback),
            _ => Err(Refusal::OpcodeUnlisted),
        }
    }
}

// Refusal 8: may a command's payload have n bytes?
fn length_allowed(command: Command, n: u8) -> bool
    ensures { result ≡ length_allowed command n }
{
    match command {
        Command::UpdateAuthKey => n == 65,
        Command::StoreUsrKey => 2 <= n,
        Command::LoadUsrKey | Command::LockUsrKey | Command::UnloadUsrKey => n == 1,
        Command::GetState
        | Command::FwUpgrade
        | Command::FwDelete
        | Command::LockAuthKey
        | Command::StartWs
        | Command::ActivateAntirollback => n == 0,
    }
}

// Refusal 9: is the size inside a payload of n bytes right?
fn inner_allowed(command: Command, s: &[u8], n: u8) -> bool
    ensures { result ≡ inner_allowed command s.now n }
{
    match command {
        Command::UpdateAuthKey => basics::byte_at(s, 4) == 64,
        Command::StoreUsrKey => basics::byte_at(s, 5) as u16 + 2 == n as u16,
        _ => true,
    }
}

// Refusals 7, 8 and 9 of the packet s with n payload bytes.
#[tactic(auto, unfolding(basics::specs::Choice::pick))]
fn judge(opcode: u16, s: &[u8], n: u8) -> Result<Request, Refusal>
    ensures { result ≡ judged (command_of opcode) s.now n }
{
    let command = Command::try_from(opcode)?;
    if !length_allowed(command, n) {
        return Err(Refusal::PayloadLength);
    }
    if !inner_allowed(command, s, n) {
        return Err(Refusal::InnerSize);
    }
    Ok(Request { command, length: n })
}

// Reads a packet: the lawful command, or the refusal.
#[tactic(auto, unfolding(crate::specs::Packets::read_of, basics::specs::Choice::pick))]
pub fn read(s: &[u8]) -> Result<Request, Refusal>
    ensures { result ≡ read_of s.now }
{
    if s.len() < 4 {
        return Err(Refusal::PacketShort);
    }
    if s[0] != 0x10 {
        return Err(Refusal::NoCommand);
    }
    let n = s[3];
    if n as usize + 4 != s.len() {
        return Err(Refusal::LengthDiffers);
    }
    judge(u16::from_le_bytes([s[1], s[2]]), s, n)
}
