// An entry of the ledger as a record that C can read.
ghost use Rattle.std.specs.Prelude.{◌≡◌, ◌≤◌, ◌++◌, length, map, drop};
ghost use Rattle.exports.specs.Entries.{entry_record};

use ledger::{Entry, EntryKind};

/// An entry of the ledger.
#[repr(C)]
#[derive(Clone, Copy, PartialEq, Eq, Debug)]
pub struct EntryRecord {
    /// From 1.
    pub month: u32,
    /// 0 for a bill, 1 for a true-up.
    pub letter: u32,
    /// The number of the line on the bill, from 1.
    pub line: u32,
    /// What is added to the line, in cents.
    pub cents: i64,
}

impl From<&Entry> for EntryRecord {
    ghost from_gives = { λ entry record'. record' ≡ entry_record entry.now };

    fn from(entry: &Entry) -> EntryRecord {
        EntryRecord {
            month: entry.month.into(),
            letter: match entry.kind {
                EntryKind::Bill => 0,
                EntryKind::TrueUp => 1,
            },
            line: entry.line.into(),
            cents: entry.cents,
        }
    }
}

// The entries over the first records.
pub(crate) fn write_entries(records: &mut [EntryRecord], entries: &[Entry])
    requires { length entries.now ≤ length records.old }
    ensures { records.new ≡ map entry_record entries.now ++ drop (length entries.now) records.old }
{
    for (i, entry) in entries.iter().enumerate() {
        records[i] = EntryRecord::from(entry);
    }
}
