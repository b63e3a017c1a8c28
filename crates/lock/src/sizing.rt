// The judgement of sizes, and what they have.
ghost use Rattle.std.specs.Prelude.{◌≡◌, cond, Ok, Err, nat_lt};
ghost use Rattle.lock.specs.Locks.{sizes_judged};
ghost use Rattle.lock.specs.Lock.{sized, within};
ghost use Rattle.lock.specs.declared.fault.SizeFault.TheVariants.{OutOfRange};
ghost use Rattle.lock.specs.declared.fault.LockFault.TheVariants.{NoPlace};

use crate::fault::{LockFault, SizeFault};
use crate::sizes::{Counts, Sizes};

const MOST_CARDS: u8 = 8;

const MOST_NODES: u8 = 32;

const MOST_COUNTERS: u8 = 8;

// A number as a size, where it is from 1 to the most.
fn judged(most: u8, asked: u16) -> Result<u8, SizeFault>
    ensures { result ≡ cond (within most asked) (Ok asked) (Err OutOfRange) }
{
    match u8::try_from(asked) {
        Ok(size) if size >= 1 && size <= most => Ok(size),
        _ => Err(SizeFault::OutOfRange),
    }
}

// The number of a node or a counter, where there are more of them.
fn below(count: u8, number: u16) -> Result<u8, LockFault>
    ensures { result ≡ cond (nat_lt number count) (Ok number) (Err NoPlace) }
{
    u8::try_from(number)
        .ok()
        .filter(|place| *place < count)
        .ok_or(LockFault::NoPlace)
}

impl Sizes {
    // The sizes, where each is within its range.
    pub fn new(asked: Counts) -> Result<Sizes, SizeFault>
        ensures { sizes_judged result ≡ sized asked.cards asked.nodes asked.counters }
    {
        Ok(Sizes {
            cards: judged(MOST_CARDS, asked.cards)?,
            nodes: judged(MOST_NODES, asked.nodes)?,
            counters: judged(MOST_COUNTERS, asked.counters)?,
        })
    }

    // Whether there is a card of a number.
    pub fn has_card(self, card: usize) -> bool
        ensures { result ≡ nat_lt card self.cards }
    {
        card < usize::from(self.cards)
    }

    // The node of a number, where there is one.
    pub(crate) fn node(self, node: u16) -> Result<u8, LockFault>
        ensures { result ≡ cond (nat_lt node self.nodes) (Ok node) (Err NoPlace) }
    {
        below(self.nodes, node)
    }

    // The counter of a number, where there is one.
    pub(crate) fn counter(self, counter: u16) -> Result<u8, LockFault>
        ensures { result ≡ cond (nat_lt counter self.counters) (Ok counter) (Err NoPlace) }
    {
        below(self.counters, counter)
    }

    pub fn cards(self) -> u8
        ensures { result ≡ self.cards }
    {
        self.cards
    }

    pub fn nodes(self) -> u8
        ensures { result ≡ self.nodes }
    {
        self.nodes
    }

    pub fn counters(self) -> u8
        ensures { result ≡ self.counters }
    {
        self.counters
    }
}
