ghost use Rattle.std.specs.Prelude.{◌≡◌, true, slice_index_or};
ghost use Rattle.inplace.specs.Undo.{distinct, undoes};
ghost use Rattle.inplace.specs.Standing.{meant, dooming};

use memory::access::Access;
use memory::land::land;
use memory::log::Transaction;
use memory::place::Place;

// The requester wins: dooms every other card's open transaction that the access goes against, and puts back
// what it had written. A loop of its own beside the first memory's, where a record is all that changes; the index says
// whose record is passed over.
pub(crate) fn doom(cells: &mut [u16], txs: &mut [Transaction], place: Place, how: Access)
    requires { distinct (undoes txs.old) ≡ true }
    ensures apart { distinct (undoes txs.new) ≡ true }
    ensures own { (t : Transaction) → slice_index_or txs.new place.card t ≡ slice_index_or txs.old place.card t }
    ensures after { meant cells.new txs.new
        ≡ dooming how place.card place.cell (meant cells.old txs.old) }
{
    for (i, tx) in txs.iter_mut().enumerate() {
        if i != place.card && tx.conflicts(how, place.cell) {
            land(cells, tx.writes());
            *tx = Transaction::Doomed;
        }
    }
}
