// What FUS does on a lawful command, but for the user keys: each on the record's bytes, with what it is answered.
// Kept: `Held` is a clause of each command and no struct around the lent record: such a struct would owe, in each function, that it holds the same bytes still (a clause for the one that goes), and `Held` again after each setter.
#![tactic(auto, using(device::proofs::Laws::on_record, crate::proofs::Laws::is_get_state_by), unfolding(device::specs::Layout::decode, device::specs::Layout::head_in, basics::specs::Choice::pick, crate::specs::Commands::stack_running, crate::specs::Commands::job_under_way))]

ghost use Rattle.std.specs.Prelude.{◌≡◌, length};
ghost use Rattle.device.specs.Steps.{failed};
ghost use Rattle.device.specs.Layout.{head_in};
ghost use Rattle.device.specs.Fields.{Held};
ghost use Rattle.device.specs.Done.{done, stepped, Steps};
ghost use Rattle.commands.specs.Commands.{stack_running, job_under_way, get_state, delete_stack, start_stack, update_auth, lock_auth, antirollback, upgrade};

use answer::{Answer, Checked, Failure};
use device::{Mode, Record, fields, places};
use packet::Command;

// The command fails: its error becomes pending.
pub fn failed(rec: &mut Record, failure: Failure) -> Answer
    requires { Held rec.old }
    ensures { Steps rec.old rec.new result (failed (head_in rec.old) failure) }
{
    fields::set_error(rec, failure.error());
    Answer::Failed(failure)
}

// Stack running: two state requests in a row make FUS run.
// Kept: states are bytes, here and below, and no enum: `Answer::State` has the two bytes of the response, as `stack_running` of the definitions says them.
pub fn stack_running(rec: &mut Record, command: Command) -> Answer
    requires { Held rec.old }
    ensures { Steps rec.old rec.new result (stack_running (head_in rec.old) command) }
{
    if command != Command::GetState {
        fields::set_asked(rec, false);
        return Answer::Failed(Failure::StackRuns);
    }
    if fields::flag(rec, places::ASKED) {
        fields::lose(rec);
        fields::set_mode(rec, Mode::Idle);
    } else {
        fields::set_asked(rec, true);
    }
    Answer::State {
        state: 0xFF,
        error: 0xFE,
    }
}

// Job under way: nothing changes.
pub fn job_under_way(rec: &Record, command: Command) -> Answer
    requires { Held rec.now }
    ensures { Steps rec.now rec.now result (job_under_way (head_in rec.now) command) }
{
    if command == Command::GetState {
        return Answer::State {
            state: 0x10,
            error: 0x00,
        };
    }
    Answer::Failed(Failure::JobUnderWay)
}

// FUS idle: the pending error is replied and cleared.
pub fn get_state(rec: &mut Record) -> Answer
    requires { Held rec.old }
    ensures { Steps rec.old rec.new result (get_state (head_in rec.old)) }
{
    let error = fields::byte(rec, places::ERROR);
    fields::set_error(rec, 0);
    if error == 0 {
        return Answer::State {
            state: 0x00,
            error: 0x00,
        };
    }
    Answer::State { state: 0xFF, error }
}

pub fn delete_stack(rec: &mut Record) -> Answer
    requires { Held rec.old }
    ensures { Steps rec.old rec.new result (delete_stack (head_in rec.old)) }
{
    if fields::flag(rec, places::PRESENT) {
        fields::set_mode(rec, Mode::Delete { recorded: 0 });
        fields::set_error(rec, 0);
        return Answer::Accepted;
    }
    failed(rec, Failure::NoStack)
}

// The stack runs, and what is lost is lost.
pub fn start_stack(rec: &mut Record) -> Answer
    requires { Held rec.old }
    ensures { Steps rec.old rec.new result (start_stack (head_in rec.old)) }
{
    if fields::flag(rec, places::PRESENT) {
        fields::lose(rec);
        fields::set_mode(rec, Mode::Stack);
        return Answer::Accepted;
    }
    failed(rec, Failure::NoStack)
}

pub fn update_auth(rec: &mut Record, key: &[u8]) -> Answer
    requires held { Held rec.old }
    requires key_len { length key.now ≡ 64 }
    ensures { done result rec.new ≡ stepped (update_auth (head_in rec.old)) key.now rec.old }
{
    if fields::flag(rec, places::LOCKED) {
        return failed(rec, Failure::AuthLocked);
    }
    fields::set_auth_key(rec, key);
    fields::set_auth(rec);
    fields::set_error(rec, 0);
    Answer::Accepted
}

// A key that is locked already is locked again.
pub fn lock_auth(rec: &mut Record) -> Answer
    requires { Held rec.old }
    ensures { Steps rec.old rec.new result (lock_auth (head_in rec.old)) }
{
    if fields::flag(rec, places::AUTH) {
        fields::set_locked(rec);
        fields::set_error(rec, 0);
        return Answer::Accepted;
    }
    failed(rec, Failure::NoAuthKey)
}

// The floor becomes the stack's version; when already on, it stays.
pub fn antirollback(rec: &mut Record) -> Answer
    requires { Held rec.old }
    ensures { Steps rec.old rec.new result (antirollback (head_in rec.old)) }
{
    if fields::flag(rec, places::ROLLBACK) {
        fields::set_error(rec, 0);
        return Answer::Accepted;
    }
    let version = fields::word(rec, places::VERSION);
    fields::set_floor(rec, version);
    fields::set_error(rec, 0);
    Answer::Accepted
}

// By what the seven checks found.
pub fn upgrade(rec: &mut Record, checked: Checked) -> Answer
    requires { Held rec.old }
    ensures { Steps rec.old rec.new result (upgrade (head_in rec.old) checked) }
{
    match checked {
        Checked::Good { p, size, version } => {
            fields::set_mode(
                rec,
                Mode::Upgrade {
                    p,
                    size,
                    version,
                    recorded: 0,
                },
            );
            fields::set_error(rec, 0);
            Answer::Accepted
        }
        Checked::Fails(failure) => failed(rec, failure),
        Checked::Erases { failure, p: _ } => failed(rec, failure),
    }
}
