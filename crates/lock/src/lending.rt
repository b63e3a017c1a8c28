// The lending of one record out of the table.
ghost use Rattle.std.specs.Prelude.{◌≡◌, ◌<◌, slice_index_or};
ghost use Rattle.std.specs.Borrow.{sem, follows};
ghost use Rattle.lock.specs.Tables.{with_record};
ghost use Rattle.lock.specs.contracts.table.Table.{the_row};

use crate::table::Table;

impl<T> Table<T> {
    // Lends one card's record to be changed: the table ends with what is written there, and is otherwise as it was. The
    // card is no place of a memory, which has a cell too: whoever asks has judged it.
    pub(crate) fn card_mut(&mut self, card: usize) -> &mut T
        requires { card < 8 }
        ensures* follows { sem 𝓛
            (follows (the_row T.row) T.row self.entry.ghost_name result.ghost_name (with_record self.old card)) }
        ensures value { (d : T) → result.now ≡ slice_index_or self.old.records card d }
    {
        &mut self.records[card]
    }
}
