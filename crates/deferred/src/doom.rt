ghost use Rattle.std.specs.Prelude.{◌≡◌, map, slice_index_or, slice_set};
ghost use Rattle.memory.specs.Meaning.{none, struck};
ghost use Rattle.memory.specs.Logs.{tx_kept};

use memory::access::Access;
use memory::log::Transaction;
use memory::place::Place;

// The requester wins: dooms every other card's open transaction that the access goes against. The index says whose
// record is passed over.
pub(crate) fn doom(txs: &mut [Transaction], place: Place, how: Access)
    ensures { map tx_kept txs.new
        ≡ slice_set (map (struck how place.cell) (map tx_kept txs.old)) place.card
        (slice_index_or (map tx_kept txs.old) place.card none) }
{
    for (i, tx) in txs.iter_mut().enumerate() {
        if i != place.card && tx.conflicts(how, place.cell) {
            *tx = Transaction::Doomed;
        }
    }
}
