ghost use Rattle.std.specs.Prelude.{◌≡◌};
ghost use Rattle.memory.specs.Meaning.{landed};

use crate::write::Write;

// Puts the values of the writes into their cells, one after the other; a cell that is not there is passed over.
pub fn land(cells: &mut [u16], writes: &[Write])
    ensures { cells.new ≡ landed cells.old writes.now }
{
    for write in writes {
        let at = usize::from(write.cell);
        // No `get_mut`, whose contract does not say what the slice is once the element was written.
        if at < cells.len() {
            cells[at] = write.value;
        }
    }
}
