// The lock: cards queue up in a line that lies in the memory itself, each behind the node of the one ahead.
//
// A card joins at the tail and leaves from wherever it stands, and both are transactions: what was read is still true
// at the commit, or the commit is refused and the card starts again. A writer waits until it is first. A reader waits
// until it is first or the reader right ahead is active; then it makes itself active in a transaction that also reads
// who is behind, and wakes a reader there. A writer that leaves wakes the next; a reader that leaves the front wakes it
// if it is a writer (a reader there was let in already). Each step is one memory access, so whatever other cards do
// falls between two of them.
use crate::sizes::Sizes;
use crate::table::Table;
use stages::stage::Card;

// The lock on a memory: the cards' records, and no line of its own. The line is in the memory.
#[derive(Drop)]
pub struct Lock<M> {
    pub(crate) memory: M,
    pub(crate) sizes: Sizes,
    pub(crate) table: Table<Card>,
}
