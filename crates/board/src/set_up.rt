// A board newly set up, calls on it, and its memory given back.
ghost use Rattle.std.specs.Prelude.{◌≡◌, [], MatchResult};
ghost use Rattle.door.specs.Door.{new_door};
ghost use Rattle.door.specs.Doors.{set_up};
ghost use Rattle.board.specs.History.{board_state, board_size, StandsAfter, CarriedThroughout};
ghost use Rattle.board.specs.Recounts.{RecountedThroughout};
ghost use Rattle.board.specs.Boards.{given_by, played};

use crate::board::Board;
use door::call::Call;
use door::door::Door;
use door::fault::Unfit;
use lock::sizes::Counts;
use memory::memory::Memory;

impl<M: Memory> Board<M> {
    // Clears the memory and sets a board up on it. Where a size is out of range, the memory comes back as it was.
    pub fn set_up(memory: M, asked: Counts) -> Result<Board<M>, Unfit<M>>
        ensures gives { given_by M.meaning result ≡ set_up memory asked.cards asked.nodes asked.counters }
        ensures promise { MatchResult result
            (λ b. StandsAfter (board_size b) [] (board_state M.meaning b)) (λ _. Unit {0}) }
    {
        let door = Door::set_up(memory, asked)?;
        Ok(Board { door })
    }

    // Sets a board up and makes the calls in turn, refused ones too. The promise stands before the first and after
    // each.
    pub fn play(memory: M, asked: Counts, calls: &[Call]) -> Result<Board<M>, Unfit<M>>
        ensures gives { given_by M.meaning result ≡ played memory asked.cards asked.nodes asked.counters calls.now }
        ensures promise { MatchResult result
            (λ b. StandsAfter (board_size b) calls.now (board_state M.meaning b)
            × CarriedThroughout (board_size b) [] calls.now) (λ _. Unit {0}) }
        ensures tells { MatchResult result
            (λ b. RecountedThroughout (board_size b) [] calls.now new_door) (λ _. Unit {0}) }
    {
        let mut board = Board::set_up(memory, asked)?;
        board.run(calls);
        Ok(board)
    }

    // The memory, with whatever stands in it.
    pub fn into_memory(self) -> M
        ensures { result ≡ self.door.lock.memory }
    {
        self.door.into_memory()
    }
}
