ghost use Rattle.std.specs.Prelude.{◌≤◌};

// How many cards, nodes and counters are asked for, not judged yet.
#[derive(Clone, Copy)]
pub struct Counts {
    pub cards: u16,
    pub nodes: u16,
    pub counters: u16,
}

// How many cards, nodes and counters a board has. A value exists only within the ranges, so that no later call judges
// them.
#[derive(Clone, Copy)]
pub struct Sizes {
    pub(crate) cards: u8,
    pub(crate) nodes: u8,
    pub(crate) counters: u8,
    ghost few_cards: { (1 ≤ cards) × (cards ≤ 8) },
    ghost few_nodes: { (1 ≤ nodes) × (nodes ≤ 32) },
    ghost few_counters: { (1 ≤ counters) × (counters ≤ 8) },
}
