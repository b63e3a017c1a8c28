// A whole schedule, run on a board.
ghost use Rattle.std.specs.Prelude.{◌≡◌, ◌+◌, ◌<◌, IfOk, string_bytes};
ghost use Rattle.door.specs.Door.{called};
ghost use Rattle.board.specs.History.{board_state, board_size, Carries};
ghost use Rattle.runner.specs.Calls.{call_of_event};
ghost use Rattle.runner.specs.Prints.{Prints, OnePrint, PromiseStands, RecountsStand};
ghost use Rattle.runner.specs.Plays.{Plays, Ends, Queues};

use crate::calls::call_of;
use crate::faults::RunFault;
use board::board::Board;
use door::fault::DoorFault;
use lock::sizes::Counts;
use memory::memory::Memory;
use report::{answer_line, bad_line, queue_line, refused_sizes};
use schedule::{Event, take_count, take_end, take_event, take_sizes};
use stages::answer::Answer;
use std::alloc::{AllocError, Global};

// The number of the first event, as it is printed.
const FIRST: u16 = 1;

// The number that is printed for the event that is number `index`, counted from 0.
fn number_of(index: u16) -> u16
    requires { index < 65535 }
    ensures { result ≡ index + 1 }
{
    index + FIRST
}

// Runs an event on a board.
fn take_turn<M: Memory>(board: &mut Board<M>, event: Event) -> Result<Answer, DoorFault>
    ensures moves { (result, board_state M.meaning board.new)
        ≡ called (board_size board.old) (board_state M.meaning board.old) (call_of_event event) }
    ensures same { board_size board.new ≡ board_size board.old }
    ensures promise { Carries (board_size board.old) (call_of_event event)
        (board_state M.meaning board.old) (board_state M.meaning board.new) result }
{
    board.call(call_of(event))
}

// Sets a board up and runs the events of `text` on it, each before the next line is read, so that those before a line
// at fault have been run: a loop of its own, and no reader of the whole text. Appends the line of every answer to
// `out`, up to the end of the text or to the first line at fault.
fn play<M: Memory + Drop>(
    heap: Global,
    memory: M,
    out: &mut String,
    text: &[u8],
) -> Result<Board<M>, RunFault>
    ensures { Plays M.meaning (string_bytes out.old) text.now
        (string_bytes out.new) result }
{
    let (sizes, rest) = take_sizes(text)?;
    // No From: neither type is this crate's, and what a text says is not yet what a board is asked for.
    let asked = Counts {
        cards: sizes.cards,
        nodes: sizes.nodes,
        counters: sizes.counters,
    };
    let mut board = Board::set_up(memory, asked)?;
    let (count, mut rest) = take_count(rest)?;
    // The index is the event's number, by which a fault finds its line.
    for index in 0..count {
        let (event, after) = take_event(rest, index)?;
        let answer = take_turn(&mut board, event);
        out.push_str(answer_line(heap, number_of(index), answer)?.as_str())?;
        rest = after;
    }
    take_end(rest, count)?;
    Ok(board)
}

// The line of the nodes that stand in line.
fn queue<M: Memory>(heap: Global, board: &Board<M>) -> Result<String, AllocError>
    ensures { IfOk result (λ s. Queues M.meaning board.now (string_bytes s)) }
{
    let mut place = [0u16; 8];
    let count = board.line(&mut place);
    queue_line(heap, &place[..count])
}

// The line that ends a run, by how it ended.
fn last_line<M: Memory + Drop>(
    heap: Global,
    end: Result<Board<M>, RunFault>,
) -> Result<String, AllocError>
    ensures { IfOk result (λ s. Ends M.meaning end (string_bytes s)) }
{
    match end {
        Ok(board) => queue(heap, &board),
        Err(RunFault::Form(fault)) => bad_line(heap, fault),
        Err(RunFault::Sizes(fault)) => refused_sizes(heap, fault),
        Err(RunFault::Memory(e)) => Err(e),
    }
}

// All that is printed for `text`, on any memory.
pub fn run<M: Memory + Drop>(heap: Global, memory: M, text: &[u8]) -> Result<String, AllocError>
    ensures prints { IfOk result (λ s. Prints text.now (string_bytes s)) }
    ensures one { OnePrint }
    ensures promise { PromiseStands }
    ensures tells { RecountsStand }
{
    let mut out = String::new(heap);
    let end = play(heap, memory, &mut out, text);
    out.push_str(last_line(heap, end)?.as_str())?;
    Ok(out)
}
