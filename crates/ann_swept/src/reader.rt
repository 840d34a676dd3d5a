// Which blocks read which cells.
use rpy_base::{NoMem, Seq};
use std::alloc::Global;

/// A block of a graph.
#[derive(Clone, Copy, Debug, PartialEq, Eq)]
pub struct Place {
    pub graph: usize,
    pub block: u64,
}

// A reader, and the entry of the one before it.
#[derive(Clone, Copy, Debug, PartialEq, Eq)]
struct Entry {
    reader: Place,
    before: Option<usize>,
}

/// For each cell the last entry of its readers.
#[derive(Drop)]
pub struct Readers {
    last: Seq<Option<usize>>,
    entries: Seq<Entry>,
}

fn last_of(last: &Seq<Option<usize>>, cell: usize) -> Option<usize> {
    match last.get(cell) {
        None => None,
        Some(entry) => *entry,
    }
}

impl Readers {
    pub fn new(alloc: Global, cells: usize) -> Result<Readers, NoMem> {
        let mut last = Seq::new(alloc);
        for _cell in 0..cells {
            last.push(None)?;
        }
        Ok(Readers {
            last,
            entries: Seq::new(alloc),
        })
    }

    // Whether the block was the last to read the cell.
    fn read_last(&self, cell: usize, reader: Place) -> bool {
        match last_of(&self.last, cell) {
            None => false,
            Some(entry) => match self.entries.get(entry) {
                None => false,
                Some(entry) => entry.reader == reader,
            },
        }
    }

    /// The block reads the cell.
    pub fn add(&mut self, cell: usize, reader: Place) -> Result<(), NoMem> {
        if cell < self.last.len() && !self.read_last(cell, reader) {
            let entry = self.entries.len();
            let before = last_of(&self.last, cell);
            self.entries.push(Entry { reader, before })?;
            if cell < self.last.len() {
                self.last.set(cell, Some(entry));
            }
        }
        Ok(())
    }

    /// The last reader of a cell, which reads it no longer.
    pub fn take(&mut self, cell: usize) -> Option<Place> {
        match last_of(&self.last, cell) {
            None => None,
            Some(entry) => match self.entries.get(entry) {
                None => None,
                Some(entry) => {
                    let found = *entry;
                    if cell < self.last.len() {
                        self.last.set(cell, found.before);
                    }
                    Some(found.reader)
                }
            },
        }
    }
}
