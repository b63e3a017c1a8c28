// The calls of a board. Each is exact for every state; and for every history that the board has followed, the promise
// stands after it.
ghost use Rattle.std.specs.Prelude.{◌≡◌, length};
ghost use Rattle.lock.specs.Lines.{nodes_in_line, placed};
ghost use Rattle.door.specs.Door.{called, ran};
ghost use Rattle.board.specs.Resends.{Again};
ghost use Rattle.board.specs.History.{board_state, board_size, Carries, CarriesAll, LinesUp};
ghost use Rattle.board.specs.Recounts.{Recounts, RecountsAll};

use crate::board::Board;
use door::call::Call;
use door::fault::DoorFault;
use memory::memory::Memory;
use stages::answer::Answer;

impl<M: Memory> Board<M> {
    // Makes a call: a request, a step, an abort or a reuse. A request that is sent again, whatever was called in
    // between but requests of its card, gets the same answer and changes nothing.
    pub fn call(&mut self, call: Call) -> Result<Answer, DoorFault>
        ensures moves { (result, board_state M.meaning self.new)
            ≡ called (board_size self.old) (board_state M.meaning self.old) call }
        ensures same { board_size self.new ≡ board_size self.old }
        ensures promise { Carries (board_size self.old) call
            (board_state M.meaning self.old) (board_state M.meaning self.new) result }
        ensures again { Again (board_size self.old) call
            (board_state M.meaning self.new) result }
        ensures tells { Recounts (board_size self.old) call
            (board_state M.meaning self.old) (board_state M.meaning self.new) result }
    {
        self.door.call(call)
    }

    // Makes the calls in turn, refused ones too.
    pub fn run(&mut self, calls: &[Call])
        ensures moves { board_state M.meaning self.new
            ≡ ran (board_size self.old) (board_state M.meaning self.old) calls.now }
        ensures same { board_size self.new ≡ board_size self.old }
        ensures promise { CarriesAll (board_size self.old) calls.now
            (board_state M.meaning self.old) (board_state M.meaning self.new) }
        ensures tells { RecountsAll (board_size self.old) calls.now (board_state M.meaning self.old) }
    {
        self.door.run(calls)
    }

    // Writes the nodes in line, in order, into the place, the unused numbers 0, and gives their count. The place is the
    // caller's, of eight, as a display asks for it.
    pub fn line(&self, place: &mut [u16; 8]) -> usize
        ensures nodes { place.new
            ≡ placed (nodes_in_line (board_state M.meaning self.now).lock.meaning
            (board_state M.meaning self.now).lock.cards) }
        ensures count { result
            ≡ length (nodes_in_line (board_state M.meaning self.now).lock.meaning
            (board_state M.meaning self.now).lock.cards) }
        ensures promise { LinesUp (board_size self.now)
            (board_state M.meaning self.now) place.new result }
    {
        self.door.line(place)
    }
}
