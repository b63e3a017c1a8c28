ghost use Rattle.std.specs.Prelude.{◌≡◌, []};
ghost use Rattle.memory.specs.Few.{fitted};
ghost use Rattle.memory.specs.Logs.{marks_of, writes_of, writes_in, tx_kept, wanting_none};
ghost use Rattle.memory.specs.Meaning.{conflicts, wrote, value_in, marking, recording};

use crate::access::Access;
use crate::fault::Refusal;
use crate::few::Few;
use crate::log::{Log, Transaction};
use crate::place::Place;
use crate::search::find;
use crate::write::Write;

impl Log {
    // The log of a transaction that has just begun.
    pub fn new() -> Log
        ensures marks { marks_of result ≡ [] }
        ensures writes { writes_of result ≡ [] }
    {
        Log {
            marks: Few::none(0),
            writes: Few::none(Write { cell: 0, value: 0 }),
        }
    }

    // The writes, in the order in which their cells were first written.
    pub fn writes(&self) -> &[Write]
        ensures { result.now ≡ writes_of self.now }
    {
        self.writes.as_slice()
    }

    // Whether the cell is written.
    pub fn wrote(&self, cell: usize) -> bool
        ensures { result ≡ wrote (writes_of self.now) cell }
    {
        self.writes.has(cell)
    }

    // The value of the write of the cell.
    #[tactic(auto, using(crate::proofs::Writes::found_value, crate::proofs::Writes::none_value))]
    pub fn value_of(&self, cell: usize) -> Option<u16>
        ensures { result ≡ value_in (writes_of self.now) cell }
    {
        let writes = self.writes();
        let at = find(writes, cell)?;
        Some(writes[at].value)
    }

    // Marks the cell, once. The cast keeps the number, as no place is past cell 136.
    pub fn mark(&mut self, place: Place) -> Result<(), Refusal>
        ensures marks { (result, marks_of self.new)
            ≡ fitted (marks_of self.old) (marking (marks_of self.old) place.cell) }
        ensures writes { writes_of self.new ≡ writes_of self.old }
    {
        self.marks.mark(place.cell as u8)
    }

    // Records a write of the cell, in place of an earlier one.
    pub fn record(&mut self, place: Place, value: u16) -> Result<(), Refusal>
        ensures marks { marks_of self.new ≡ marks_of self.old }
        ensures writes { (result, writes_of self.new)
            ≡ fitted (writes_of self.old) (recording (writes_of self.old) place.cell value) }
    {
        let write = Write {
            cell: place.cell as u8,
            value,
        };
        if let Some(at) = find(self.writes(), place.cell) {
            self.writes.items[at] = write;
            return Ok(());
        }
        self.writes.push(write)
    }
}

impl Transaction {
    // Refuses a call that wants no transaction where there is one, open or doomed.
    pub fn closed(&self) -> Result<(), Refusal>
        ensures { result ≡ wanting_none self.now }
    {
        match self {
            Transaction::Closed => Ok(()),
            Transaction::Open(_) | Transaction::Doomed => Err(Refusal::Already),
        }
    }

    // The writes of the transaction.
    pub fn writes(&self) -> &[Write]
        ensures { result.now ≡ writes_in self.now }
    {
        match self {
            Transaction::Open(log) => log.writes(),
            Transaction::Closed | Transaction::Doomed => &[],
        }
    }

    // The value of the transaction's write of the cell.
    pub fn value_of(&self, cell: usize) -> Option<u16>
        ensures { result ≡ value_in (writes_in self.now) cell }
    {
        match self {
            Transaction::Open(log) => log.value_of(cell),
            Transaction::Closed | Transaction::Doomed => None,
        }
    }

    // Whether an access of the cell by another card dooms the transaction.
    pub fn conflicts(&self, how: Access, cell: usize) -> bool
        ensures { result ≡ conflicts how cell (tx_kept self.now) }
    {
        match (self, how) {
            (Transaction::Open(log), Access::Reads) => log.wrote(cell),
            (Transaction::Open(log), Access::Writes) => log.wrote(cell) || log.marks.has(cell),
            (Transaction::Closed | Transaction::Doomed, _) => false,
        }
    }
}
