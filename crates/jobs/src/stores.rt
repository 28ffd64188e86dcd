// A job's store, whole or cut, as it changes the flash.
ghost use Rattle.std.specs.Prelude.{◌≡◌, length};
ghost use Rattle.plan.specs.Stores.{stored, spoilt};
ghost use Rattle.jobs.specs.Jobs.{Within};

use device::Board;
use plan::Store;

// The store is made.
pub fn make(flash: &mut [u8], board: Board, store: Store)
    requires { Within board.size (length flash.old) store }
    ensures { flash.new ≡ stored board.size store flash.old }
{
    match store {
        Store::Erase { target } => sectors::erase(flash, board.size, target),
        Store::Write {
            target,
            source,
            count,
        } => sectors::copy(flash, board.size, source, target, count),
        Store::Record | Store::Last => {}
    }
}

// The store is cut: a sector store leaves the filler in that sector.
pub fn cut(flash: &mut [u8], board: Board, store: Store, filler: &[u8])
    requires within { Within board.size (length flash.old) store }
    requires filler_len { length filler.now ≡ board.size }
    ensures { flash.new ≡ spoilt board.size store filler.now flash.old }
{
    match store {
        Store::Erase { target } | Store::Write { target, .. } => {
            sectors::spoil(flash, board.size, target, filler)
        }
        Store::Record | Store::Last => {}
    }
}
