// Calls coded as numbers, seven to a call: what it is, its card, and five numbers more, 0 where unused. They come from
// C, which has no enum of ours, so what a call is stays a number up to here.
use door::call::Call;
use lock::values::NodeValues;
use std::alloc::{AllocError, Global};

const STEP: u16 = 0;

const ABORT: u16 = 1;

const REUSE: u16 = 2;

// One call.
fn decode(code: [u16; 7]) -> Call {
    let [what, card, a, b, c, d, e] = code;
    match what {
        STEP => Call::Step { card },
        ABORT => Call::Abort { card },
        REUSE => Call::Reuse {
            card,
            node: a,
            values: NodeValues {
                next: b,
                prev: c,
                state: d,
                spin: e,
            },
        },
        _ => Call::Request {
            card,
            toggle: a,
            kind: b,
            first: c,
            second: d,
        },
    }
}

// All calls of a coded list. They are decoded once, ahead of the runs that are measured. Room for all is asked for at
// once, so that want of it shows before the first is decoded; `collect` would go on with less.
pub(crate) fn calls_of(heap: Global, codes: &[u16]) -> Result<Vec<Call>, AllocError> {
    let (whole, _) = codes.as_chunks::<7>();
    let mut calls = Vec::with_capacity(heap, whole.len())?;
    calls.extend(whole.iter().copied().map(decode))?;
    Ok(calls)
}
