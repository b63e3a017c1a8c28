ghost use Rattle.std.specs.Prelude.{◌≡◌};
ghost use Rattle.memory.specs.Logs.{tx_kept};
ghost use Rattle.deferred.specs.Own.{own_read, own_write, Taken};

use memory::fault::Refusal;
use memory::log::{Log, Transaction};
use memory::place::Place;
use std::mem;

// Takes the log out of an open transaction, and closes it, open or doomed: whatever a call refuses from here on leaves
// it closed.
pub(crate) fn take(tx: &mut Transaction) -> Result<Log, Refusal>
    ensures taken { Taken (tx_kept tx.old) result }
    ensures closed { tx.new ≡ Transaction.Closed }
{
    match mem::replace(tx, Transaction::Closed) {
        Transaction::Closed => Err(Refusal::NoTransaction),
        Transaction::Open(log) => Ok(log),
        Transaction::Doomed => Err(Refusal::Doomed),
    }
}

// Reads the cell for the transaction's own card: the value set aside for it, or else the standing one with a mark.
pub(crate) fn read(tx: &mut Transaction, place: Place, standing: u16) -> Result<u16, Refusal>
    ensures { (result, tx_kept tx.new) ≡ own_read (tx_kept tx.old) place.cell standing }
{
    let mut log = take(tx)?;
    let value = match log.value_of(place.cell) {
        Some(own) => own,
        None => {
            log.mark(place)?;
            standing
        }
    };
    *tx = Transaction::Open(log);
    Ok(value)
}

// Writes the cell for the transaction's own card: sets the value aside.
pub(crate) fn write(tx: &mut Transaction, place: Place, value: u16) -> Result<(), Refusal>
    ensures { (result, tx_kept tx.new) ≡ own_write (tx_kept tx.old) place.cell value }
{
    let mut log = take(tx)?;
    log.record(place, value)?;
    *tx = Transaction::Open(log);
    Ok(())
}
