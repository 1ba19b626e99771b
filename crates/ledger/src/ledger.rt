// The ledger: the entries written so far at the front of lent memory.
ghost use Rattle.std.specs.Prelude.{◌≡◌, ◌<◌, ◌∷◌, ◌++◌, [], drop, length, OnErr, OnOk};
ghost use Rattle.ledger.specs.Entries.{IsLedger, SumsWithin};

use crate::entries::Entries;
use crate::entry::{Entry, EntryKind};
use tariff::Amounts;
use thiserror::Error;

/// A ledger over lent memory: the entries written so far stand at its front; of an empty one,
/// `written` is 0. What the memory holds past them is never read.
#[derive(Drop)]
pub struct Ledger<'e, 'w> {
    /// The memory; a ledger has room for as many entries as it holds.
    pub memory: &'e mut [Entry],
    /// How many entries were written so far.
    pub written: &'w mut usize,
    ghost kept: { IsLedger written.now memory.now },
}

/// Fewer free entries than are to be written.
#[derive(Clone, Copy, PartialEq, Eq, Debug, Error)]
#[error("the ledger has room for {free} entries more")]
pub struct NoRoom {
    /// How many there are.
    pub free: usize,
}

impl Ledger<'_, '_> {
    ghost use Rattle.ledger.specs.Ledgers.{SameMemory, entries_of, free_of, room_of, write_answer};
    ghost use Rattle.ledger.specs.Entries.{entries_owed};

    /// The entries written so far.
    pub fn entries(&self) -> Entries<'_>
        ensures { result.slice.now ≡ entries_of self.now }
    {
        Entries {
            slice: &self.memory[..*self.written],
        }
    }

    // How many more entries there is room for.
    fn free(&self) -> usize
        ensures { result ≡ free_of self.now }
    {
        self.memory.len() - *self.written
    }

    // One entry more, with which each line's sum stays within the limit.
    fn push(&mut self, entry: Entry)
        requires space { self.old.written.now < room_of self.old }
        requires within { SumsWithin (entries_of self.old ++ entry ∷ []) }
        ensures pushed { entries_of self.new ≡ entries_of self.old ++ entry ∷ [] }
        ensures room { room_of self.new ≡ room_of self.old }
        ensures memory { SameMemory self.old self.new }
        ensures past { drop self.new.written.now self.new.memory.now
            ≡ drop self.new.written.now self.old.memory.now }
    {
        self.memory[*self.written] = entry;
        *self.written += 1;
    }

    /// Brings what the month's entries add up to, line by line, to these amounts: writes the
    /// differences as entries of the kind, or nothing where there is too little room. Answers how
    /// many entries it wrote. The memory past the entries stays as it was.
    pub fn write(&mut self, month: u8, kind: EntryKind, amounts: &Amounts) -> Result<usize, NoRoom>
        ensures answer { result ≡ write_answer (free_of self.old)
            (length (entries_owed kind month amounts.now.cents (entries_of self.old))) }
        ensures written { OnOk result (entries_of self.new ≡ entries_of self.old
            ++ entries_owed kind month amounts.now.cents (entries_of self.old)) }
        ensures refused { OnErr result (self.new ≡ self.old) }
        ensures room { room_of self.new ≡ room_of self.old }
        ensures past { drop self.new.written.now self.new.memory.now
            ≡ drop self.new.written.now self.old.memory.now }
        ensures memory { SameMemory self.old self.new }
    {
        let lines = self.entries().differences(month, amounts);
        let count = kind.count(&lines);
        let free = self.free();
        if free < count {
            return Err(NoRoom { free });
        }
        // a line's number is its index and one
        for (i, cents) in lines.iter().enumerate() {
            if kind.writes(*cents) {
                self.push(Entry {
                    month,
                    kind,
                    line: i as u8 + 1,
                    cents: *cents,
                });
            }
        }
        Ok(count)
    }
}
