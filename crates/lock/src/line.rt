// The line call: the nodes in line, found from the memory's standing cells and the cards' stages.
ghost use Rattle.std.specs.Prelude.{◌≡◌, length};
ghost use Rattle.lock.specs.Lines.{reader_joined, line_link, behind, points, has_ahead, leads};
ghost use Rattle.lock.specs.Lines.{first_link, nodes_in_line, placed};

use crate::lock::Lock;
use memory::memory::Memory;
use stages::layout::{Field, cell_of, link_of};
use stages::stage::{ReaderEntry, ReaderExit, Stage, WriterEntry, WriterExit};

// Whether a reader on its way in has joined the line.
fn reader_joined(at: ReaderEntry) -> bool
    ensures { result ≡ reader_joined at }
{
    matches!(
        at,
        ReaderEntry::R8
            | ReaderEntry::R9
            | ReaderEntry::R10
            | ReaderEntry::R11
            | ReaderEntry::R12 { .. }
            | ReaderEntry::R13 { .. }
            | ReaderEntry::R14 { .. }
    )
}

// The link of a card's node in line, 0 where the card is not in line. It is held against what cells hold, where 0 is
// nobody, so it stays a number and no Option.
fn line_link(stage: Stage) -> u16
    ensures { result ≡ line_link stage }
{
    match stage {
        Stage::Inside { node, .. } | Stage::Adds { node, .. } => link_of(node),
        Stage::WriterEnters {
            node,
            at: WriterEntry::W6,
        } => link_of(node),
        Stage::ReaderEnters { node, at } if reader_joined(at) => link_of(node),
        Stage::WriterLeaves {
            at: WriterExit::X5 { .. },
            ..
        }
        | Stage::ReaderLeaves {
            at: ReaderExit::Y8 { .. },
            ..
        } => 0,
        Stage::WriterLeaves { node, .. } | Stage::ReaderLeaves { node, .. } => link_of(node),
        Stage::Idle | Stage::WriterEnters { .. } | Stage::ReaderEnters { .. } => 0,
    }
}

impl<M: Memory> Lock<M> {
    // The link that stands in the next of the node that a link names; a refused look finds nobody.
    fn behind(&self, link: u16) -> u16
        ensures { result ≡ behind (M.meaning self.now.memory) link }
    {
        self.memory.look(cell_of(link, Field::Next)).unwrap_or(0)
    }

    // Whether a card is in line, on a node whose next is the link.
    fn points_to(&self, stage: Stage, link: u16) -> bool
        ensures { result ≡ points (M.meaning self.now.memory) stage link }
    {
        let here = line_link(stage);
        here != 0 && self.behind(here) == link
    }

    // Whether some card in line points to the link.
    fn has_ahead(&self, link: u16) -> bool
        ensures { result ≡ has_ahead (M.meaning self.now.memory) self.now.table.records link }
    {
        self.table
            .records
            .iter()
            .any(|card| self.points_to(card.stage, link))
    }

    // Whether a card is in line with nobody ahead of it.
    fn leads(&self, stage: Stage) -> bool
        ensures { result ≡ leads (M.meaning self.now.memory) self.now.table.records stage }
    {
        let link = line_link(stage);
        link != 0 && !self.has_ahead(link)
    }

    // The link of the first in line; 0, as a cell would say it, where the line is empty.
    fn first_link(&self) -> u16
        ensures { result
            ≡ first_link (M.meaning self.now.memory) self.now.table.records self.now.table.records }
    {
        self.table
            .records
            .iter()
            .find(|card| self.leads(card.stage))
            .map_or(0, |card| line_link(card.stage))
    }

    // Writes the nodes in line, in order, into the place, the unused numbers 0, and gives their count. The place is the
    // caller's, of eight, as a display asks for it.
    pub fn line(&self, place: &mut [u16; 8]) -> usize
        ensures nodes { place.new
            ≡ placed (nodes_in_line (M.meaning self.now.memory) self.now.table.records) }
        ensures count { result
            ≡ length (nodes_in_line (M.meaning self.now.memory) self.now.table.records) }
    {
        *place = [0; 8];
        let mut link = self.first_link();
        for (count, slot) in place.iter_mut().enumerate() {
            if link == 0 {
                return count;
            }
            *slot = link - 1;
            link = self.behind(link);
        }
        place.len()
    }
}
