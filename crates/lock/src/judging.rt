// What the calls judge first, before anything changes.
ghost use Rattle.std.specs.Prelude.{◌≡◌, cond, Ok, Err, nat_lt, slice_index_or};
ghost use Rattle.lock.specs.Lock.{idle_card, free};
ghost use Rattle.lock.specs.declared.fault.LockFault.TheVariants.{NoCard, NoPlace, NotFree};

use crate::fault::LockFault;
use crate::lock::Lock;
use crate::nodes::has_node;
use stages::stage::Stage;

impl<M> Lock<M> {
    // The stage of a card that there is.
    pub(crate) fn stage_of(&self, card: usize) -> Result<Stage, LockFault>
        ensures { result ≡ cond (nat_lt card self.now.sizes.cards)
            (Ok (slice_index_or self.now.table.records card idle_card).stage) (Err NoCard) }
    {
        if !self.sizes.has_card(card) {
            return Err(LockFault::NoCard);
        }
        Ok(self.table.records[card].stage)
    }

    // Whether no card has a node.
    fn is_free(&self, node: u8) -> bool
        ensures { result ≡ free self.now.table.records node }
    {
        let cards = &self.table.records;
        !cards.iter().any(|card| has_node(card.stage, node))
    }

    // A node that there is and that no card has.
    pub(crate) fn free_node(&self, node: u16) -> Result<u8, LockFault>
        ensures { result ≡ cond (nat_lt node self.now.sizes.nodes)
            (cond (free self.now.table.records node) (Ok node) (Err NotFree)) (Err NoPlace) }
    {
        let node = self.sizes.node(node)?;
        if !self.is_free(node) {
            return Err(LockFault::NotFree);
        }
        Ok(node)
    }
}
