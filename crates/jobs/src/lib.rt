// A job's store, whole or cut, as it changes the record: only the bytes that change are stored.
// Kept: `OnJob` is a clause and no struct around the lent record: that would owe, in each function, that it holds the same bytes still, and after the last store they are on no job.
#![tactic(auto, unfolding(basics::specs::Choice::pick, plan::specs::Stores::onward, plan::specs::Stores::cut_short, plan::specs::Stores::left_at, plan::specs::Stores::stored, plan::specs::Stores::spoilt, device::specs::Layout::head_in, device::specs::Layout::decode))]

pub mod stores;

ghost use Rattle.std.specs.Prelude.{◌≡◌, suc};
ghost use Rattle.basics.specs.Words.{word_at};
ghost use Rattle.plan.specs.Stores as Stores;
ghost use Rattle.device.specs.Modes.{recorded_in};
ghost use Rattle.device.specs.Whole.{with_head};
ghost use Rattle.device.specs.Layout.{boundary_at, mode_in, head_in, encode, decode};
ghost use Rattle.device.specs.Fields.{Becomes};
ghost use Rattle.soundness.specs.Sound.{job_of, plan_for};
ghost use Rattle.jobs.specs.Jobs.{committed, next_store};
ghost use Rattle.jobs.specs.OnJob.{OnJob, Reaches, raised};

use device::{Board, Mode, Record, fields, places};
use plan::{Placed, Store};

// The job of a record, on its board.
fn placed(rec: &Record, board: Board) -> Placed
    requires { OnJob board.size board.top rec.now }
    ensures job { result.job ≡ job_of (word_at rec.now boundary_at) (mode_in rec.now) }
    ensures size { result.size ≡ board.size }
    ensures top { result.top ≡ board.top }
{
    let boundary = fields::word(rec, places::BOUNDARY) as usize;
    Placed {
        job: soundness::job_of(boundary, fields::mode(rec)),
        size: board.size,
        top: board.top,
    }
}

// The sectors that a record's job has recorded.
fn recorded(rec: &Record) -> u32
    ensures { result ≡ recorded_in (mode_in rec.now) }
{
    fields::mode(rec).recorded()
}

// The next store of a record's job.
pub fn next(rec: &Record, board: Board) -> Store
    requires { OnJob board.size board.top rec.now }
    ensures { result ≡ next_store board.size board.top (head_in rec.now) }
{
    placed(rec, board).next(recorded(rec) as usize, fields::byte(rec, places::MADE))
}

// The stores still to do, after so many sectors are recorded and so many stores made in the next one.
fn left(rec: &Record, board: Board, recorded: u32, made: u8) -> usize
    requires { OnJob board.size board.top rec.now }
    ensures { result ≡ Stores.left (plan_for board.size board.top (head_in rec.now)) recorded made }
{
    placed(rec, board).left(recorded as usize, made)
}

// So many stores are made in the sector that is not recorded yet.
fn put_made(rec: &mut Record, board: Board, made: u8)
    requires { OnJob board.size board.top rec.old }
    ensures { Reaches board.size board.top rec.old rec.new (Stores.going (recorded_in (head_in rec.old).mode) made) }
{
    fields::set_made(rec, made);
}

// So many sectors are recorded.
fn put_recorded(rec: &mut Record, board: Board, recorded: u32)
    requires { OnJob board.size board.top rec.old }
    ensures { Reaches board.size board.top rec.old rec.new (Stores.going recorded 0) }
{
    fields::set_recorded(rec, recorded);
    fields::set_made(rec, 0);
}

// The floor after an upgrade.
fn raise_floor(rec: &mut Record, version: u32)
    ensures { Becomes rec.old rec.new (raised version) }
{
    if fields::flag(rec, places::ROLLBACK) {
        fields::set_floor(rec, version);
    }
}

// The last store puts in the new stack, or takes the old one out.
fn commit(rec: &mut Record, board: Board)
    requires { OnJob board.size board.top rec.old }
    ensures { rec.new ≡ encode (with_head (committed board.size board.top (head_in rec.old).mode (head_in rec.old)) (decode rec.old)) }
{
    let top = board.top;
    match fields::mode(rec) {
        Mode::Upgrade { size, version, .. } => {
            let sectors = sectors::sectors_for(size, board.size);
            raise_floor(rec, version);
            fields::set_stack(rec, true, version, sectors as u32, (top - sectors) as u32);
            fields::set_mode(rec, Mode::Stack);
        }
        _ => {
            fields::set_stack(rec, false, 0xFFFF_FFFF, 0, top as u32);
            fields::set_mode(rec, Mode::Idle);
        }
    }
}

// The job has ended, and what is lost is lost.
fn finish(rec: &mut Record, board: Board)
    requires { OnJob board.size board.top rec.old }
    ensures { Reaches board.size board.top rec.old rec.new Stores.ended }
{
    commit(rec, board);
    fields::lose(rec);
}

// A sector store is made: the stores still to do after it.
fn store_made(rec: &mut Record, board: Board) -> usize
    requires { OnJob board.size board.top rec.old }
    ensures reaches { Reaches board.size board.top rec.old rec.new (Stores.going (recorded_in (head_in rec.old).mode) (suc (head_in rec.old).made)) }
    ensures value { result ≡ Stores.left (plan_for board.size board.top (head_in rec.old)) (recorded_in (head_in rec.old).mode) (suc (head_in rec.old).made) }
{
    let made = fields::byte(rec, places::MADE) + 1;
    let left = left(rec, board, recorded(rec), made);
    put_made(rec, board, made);
    left
}

// A sector is recorded: the stores still to do after it.
fn sector_recorded(rec: &mut Record, board: Board) -> usize
    requires { OnJob board.size board.top rec.old }
    ensures reaches { Reaches board.size board.top rec.old rec.new (Stores.going (suc (recorded_in (head_in rec.old).mode)) 0) }
    ensures value { result ≡ Stores.left (plan_for board.size board.top (head_in rec.old)) (suc (recorded_in (head_in rec.old).mode)) 0 }
{
    let recorded = recorded(rec) + 1;
    let left = left(rec, board, recorded, 0);
    put_recorded(rec, board, recorded);
    left
}

// The record after a store: the stores still to do after it.
pub fn advance(rec: &mut Record, board: Board, store: Store) -> usize
    requires { OnJob board.size board.top rec.old }
    ensures reaches { Reaches board.size board.top rec.old rec.new (Stores.onward store (recorded_in (head_in rec.old).mode) (head_in rec.old).made) }
    ensures value { result ≡ Stores.left_at (plan_for board.size board.top (head_in rec.old)) (Stores.onward store (recorded_in (head_in rec.old).mode) (head_in rec.old).made) }
{
    match store {
        Store::Erase { .. } | Store::Write { .. } => store_made(rec, board),
        Store::Record => sector_recorded(rec, board),
        Store::Last => {
            finish(rec, board);
            0
        }
    }
}

// The record after a store that was cut.
pub fn break_off(rec: &mut Record, board: Board, store: Store, through: bool)
    requires { OnJob board.size board.top rec.old }
    ensures { Reaches board.size board.top rec.old rec.new (Stores.cut_short store through (recorded_in (head_in rec.old).mode)) }
{
    match store {
        Store::Record if through => put_recorded(rec, board, recorded(rec) + 1),
        Store::Last if through => finish(rec, board),
        _ => put_made(rec, board, 0),
    }
}
