// An entry of the ledger, and its text.
ghost use Rattle.std.specs.Prelude.{◌≡◌, ◌+◌, ◌≤◌, ◌++◌, List, ℕ, Some, count_by, length, unsigned_abs};
ghost use Rattle.ledger.specs.declared.entry.TheConstants.{MOST_BYTES};
ghost use Rattle.ledger.specs.Entries.{is_for, is_of, is_written};
ghost use Rattle.ledger.specs.Texts.{IsLaid, entry_line, entry_text, kind_letter, most_owed};

use itoa::Buffer;
use std::fmt;

/// As many bytes as the longest line of a ledger's entry: month and line of three digits, cents of
/// twelve digits and a sign, three spaces, a letter and a line feed.
pub const MOST_BYTES: usize = 24;

/// Whether an entry came from a bill or from a true-up; printed `B` and `T`.
#[derive(Clone, Copy, PartialEq, Eq, Debug)]
pub enum EntryKind {
    /// The first pricing of a month, `B`: an entry for each line, also of 0 cents.
    Bill,
    /// A pricing after that, `T`: an entry only for a line whose sum it changes.
    TrueUp,
}

/// What a bill or a true-up added to a line of a month.
#[derive(Clone, Copy, PartialEq, Eq, Debug)]
pub struct Entry {
    /// The month by its number in its book, from 1.
    pub month: u8,
    /// Whether a bill or a true-up wrote it.
    pub kind: EntryKind,
    /// The line by its number on the bill, from 1.
    pub line: u8,
    /// What is added to the line's sum, in cents; below 0 where the sum falls.
    pub cents: i64,
}

impl EntryKind {
    // A bill has an entry for each line, a true-up only where there is something to true up.
    pub(crate) fn writes(self, cents: i64) -> bool
        ensures { result ≡ is_written self cents }
    {
        match self {
            EntryKind::Bill => true,
            EntryKind::TrueUp => cents != 0,
        }
    }

    pub(crate) fn text(self) -> &'static str
        ensures { result.now ≡ kind_letter self }
    {
        match self {
            EntryKind::Bill => "B",
            EntryKind::TrueUp => "T",
        }
    }

    // How many of the lines have an entry.
    pub(crate) fn count(self, lines: &[i64]) -> usize
        ensures { result ≡ count_by (is_written self) lines.now }
    {
        lines.iter().filter(|cents| self.writes(**cents)).count()
    }
}

impl fmt::Display for EntryKind {
    ghost output = { λ kind. Some (kind_letter kind) };

    fn fmt<W: fmt::Write>(&self, f: &mut fmt::Formatter<W>) -> fmt::Result {
        f.write_str(self.text())
    }
}

impl Entry {
    /// What stands in memory for an entry that was not written yet. No ledger reads it.
    pub const UNWRITTEN: Entry = Entry {
        month: 0,
        kind: EntryKind::Bill,
        line: 0,
        cents: 0,
    };

    pub(crate) fn is_for(&self, month: u8, line: u8) -> bool
        ensures { result ≡ is_for month line self.now }
    {
        self.month == month && self.line == line
    }

    pub(crate) fn is_of(&self, kind: EntryKind) -> bool
        ensures { result ≡ is_of kind self.now }
    {
        self.kind == kind
    }

    // Puts its line at the front of the bytes; answers how long it is.
    pub(crate) fn write_line(&self, bytes: &mut [u8]) -> usize
        requires owed { unsigned_abs self.now.cents ≤ most_owed }
        requires room { MOST_BYTES ≤ length bytes.old }
        ensures { IsLaid (entry_line self.now) bytes.old result bytes.new }
    {
        let Entry {
            month,
            kind,
            line,
            cents,
        } = *self;
        let mut number = Buffer::new();
        let mut at = put(bytes, 0, number.format(month));
        at = put(bytes, at, " ");
        at = put(bytes, at, kind.text());
        at = put(bytes, at, " ");
        at = put(bytes, at, number.format(line));
        at = put(bytes, at, " ");
        at = put(bytes, at, number.format(cents));
        put(bytes, at, "\n")
    }
}

impl fmt::Display for Entry {
    ghost output = { λ entry. Some (entry_text entry) };

    fn fmt<W: fmt::Write>(&self, f: &mut fmt::Formatter<W>) -> fmt::Result {
        let Entry {
            month,
            kind,
            line,
            cents,
        } = self;
        write!(f, "{month} {kind} {line} {cents}")
    }
}

// Puts a text behind what is laid so far; answers where the next one goes.
fn put(bytes: &mut [u8], at: usize, text: &str) -> usize
    requires room { at + length text.now ≤ length bytes.old }
    ensures next { result ≡ at + length text.now }
    ensures laid { (done before : List ℕ) → IsLaid done before at bytes.old
        → IsLaid (done ++ text.now) before result bytes.new }
{
    let end = at + text.len();
    bytes[at..end].copy_from_slice(text.as_bytes());
    end
}
