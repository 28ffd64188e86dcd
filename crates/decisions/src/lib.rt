// What FUS does on a lawful command: which situation, and which command.
// Kept: `Held` is a clause of each function and no struct around the lent record: such a struct would owe, in each function, that it holds the same bytes still (a clause for the one that goes), and `Held` again after each setter.
#![tactic(auto, using(device::proofs::Laws::with_key_lem), unfolding(device::specs::Layout::head_in, crate::specs::Decisions::decided))]

ghost use Rattle.std.specs.Prelude.{◌≡◌, length};
ghost use Rattle.packet.specs.declared.Command.TheVariants.{UpdateAuthKey};
ghost use Rattle.device.specs.Layout.{mode_in, head_in};
ghost use Rattle.device.specs.Fields.{Held, look_in};
ghost use Rattle.device.specs.Done.{done, stepped};
ghost use Rattle.decisions.specs.Decisions.{idle, decided, searches};

use answer::{Answer, Checked};
use device::{Mode, Record, fields};
use packet::Command;

// A command while FUS is idle: what the checks found, the payload's first byte, and the key bytes.
fn idle(rec: &mut Record, checked: Checked, command: Command, first: u8, key: &[u8]) -> Answer
    requires held { Held rec.old }
    requires key_len { command ≡ UpdateAuthKey → length key.now ≡ 64 }
    ensures { done result rec.new ≡ stepped (idle (head_in rec.old) (look_in rec.old first) checked command first (length key.now)) key.now rec.old }
{
    match command {
        Command::GetState => commands::get_state(rec),
        Command::FwUpgrade => commands::upgrade(rec, checked),
        Command::FwDelete => commands::delete_stack(rec),
        Command::UpdateAuthKey => commands::update_auth(rec, key),
        Command::LockAuthKey => commands::lock_auth(rec),
        Command::StoreUsrKey => keys::store_key(rec, first, key),
        Command::LoadUsrKey => keys::load_key(rec, first),
        Command::StartWs => commands::start_stack(rec),
        Command::LockUsrKey => keys::lock_key(rec, first),
        Command::UnloadUsrKey => keys::unload_key(rec, first),
        Command::ActivateAntirollback => commands::antirollback(rec),
    }
}

// A lawful command, in the three situations.
pub fn command(
    rec: &mut Record,
    checked: Checked,
    command: Command,
    first: u8,
    key: &[u8],
) -> Answer
    requires held { Held rec.old }
    requires key_len { command ≡ UpdateAuthKey → length key.now ≡ 64 }
    ensures { done result rec.new ≡ stepped (decided (head_in rec.old) (look_in rec.old first) checked command first (length key.now)) key.now rec.old }
{
    match fields::mode(rec) {
        Mode::Stack => commands::stack_running(rec, command),
        Mode::Idle => idle(rec, checked, command, first, key),
        Mode::Upgrade { .. } | Mode::Delete { .. } => commands::job_under_way(rec, command),
    }
}

// Is an image looked for?
pub fn searches(rec: &Record, command: Command) -> bool
    ensures { result ≡ searches (mode_in rec.now) command }
{
    fields::mode(rec).is_idle() && command == Command::FwUpgrade
}
