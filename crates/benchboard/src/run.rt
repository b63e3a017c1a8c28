// Whole workloads on a new board of the largest sizes.
use crate::digest::extended;
use crate::workload::calls_of;
use board::board::Board;
use deferred::deferred::Deferred;
use door::call::Call;
use lock::sizes::Counts;
use memory::memory::Memory;
use std::alloc::{AllocError, Global};

// The digest of the answers to all calls on a board newly set up on the memory; 0 where it is refused, which these
// sizes are not, since the caller in C takes a number and no Result.
fn digest_on<M: Memory + Drop>(memory: M, calls: &[Call]) -> u64 {
    let most = Counts {
        cards: 8,
        nodes: 32,
        counters: 8,
    };
    Board::set_up(memory, most).map_or(0, |mut board| {
        calls
            .iter()
            .fold(0, |digest, call| extended(digest, board.call(*call)))
    })
}

// The sum of the digests of so many runs, each on a new board.
fn repeated(heap: Global, codes: &[u16], times: u32) -> Result<u64, AllocError> {
    let calls = calls_of(heap, codes)?;
    let sum = (0..times).fold(0u64, |sum, _| {
        sum.wrapping_add(digest_on(Deferred::new(), calls.as_slice()))
    });
    Ok(sum)
}

// Decodes the calls once and makes them all, each time on a new board; the digests' sum, and 0 at want of memory.
#[unsafe(no_mangle)]
pub extern "C" fn benchboard_deferred(heap: Global, codes: &[u16], times: u32) -> u64 {
    repeated(heap, codes, times).unwrap_or(0)
}
