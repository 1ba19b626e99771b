// The word that a call begins with.
ghost use Rattle.std.specs.Prelude.{◌≡◌};
ghost use Rattle.journal.specs.Verbs.{first_named, verb_form, verb_named, verb_word};

/// The word that a call begins with.
#[derive(Clone, Copy, PartialEq, Eq, Debug)]
pub enum Verb {
    /// How many months and entries the book has room for.
    Memory,
    /// The rate that prices.
    Rate,
    /// A rider over what prices already.
    Rider,
    /// The point, and what it brings from the months before.
    Open,
    /// One month more, of so many days.
    Start,
    /// One quarter's reading, in kW and kVA.
    Reading,
    /// The same reading for each quarter of a range.
    Readings,
    /// A day's readings, quarter by quarter.
    Day,
    /// One hour's pool price, in cents per MWh.
    Price,
    /// The same price for each hour of a range.
    Prices,
    /// One hour's scheduled kW.
    Schedule,
    /// The same scheduled kW for each hour of a range.
    Schedules,
    /// The posts of a file.
    Load,
    /// A month's first entries, one for each line.
    Bill,
    /// An entry for each line of a month that now prices otherwise.
    TrueUp,
    /// Nothing more is posted to the month.
    Finalise,
    /// Whether pricing the month now would alter a line.
    Due,
    /// What a month's entries for a line come to, in cents.
    Total,
    /// One entry of the ledger.
    Text,
    /// All entries of the ledger.
    Ledger,
    /// A month for people, in dollars and cents.
    Statement,
}

impl Verb {
    /// All of them, in the order in which a journal has use for them.
    pub const ALL: [Verb; 21] = [
        Verb::Memory,
        Verb::Rate,
        Verb::Rider,
        Verb::Open,
        Verb::Start,
        Verb::Reading,
        Verb::Readings,
        Verb::Day,
        Verb::Price,
        Verb::Prices,
        Verb::Schedule,
        Verb::Schedules,
        Verb::Load,
        Verb::Bill,
        Verb::TrueUp,
        Verb::Finalise,
        Verb::Due,
        Verb::Total,
        Verb::Text,
        Verb::Ledger,
        Verb::Statement,
    ];

    /// The verb of this word; none where no call begins with it.
    pub fn named(word: &str) -> Option<Verb>
        ensures { result ≡ verb_named word.now }
    {
        first_named(&Verb::ALL, word)
    }

    /// The word: what its form begins with.
    #[tactic(auto, unfolding(crate::specs::Verbs::verb_word))]
    pub fn word(self) -> &'static str
        ensures { result.now ≡ verb_word self }
    {
        let form = self.form();
        match form.split_once(' ') {
            Some((word, _)) => word,
            None => form,
        }
    }

    /// What a call of it is written as.
    pub fn form(self) -> &'static str
        ensures { result.now ≡ verb_form self }
    {
        match self {
            Verb::Memory => "memory MONTHS ENTRIES",
            Verb::Rate =>
                "rate dts|gts [8 FIGURES], xts [4 FIGURES], dos K L [2 FIGURES] or sts L M [FIGURE]",
            Verb::Rider =>
                "rider energy NUMBER RATE, percent NUMBER FACTOR or psc NUMBER [5 FIGURES]",
            Verb::Open => "open CODE CONTRACT SUBSTATION PEAK ..",
            Verb::Start => "start DAYS",
            Verb::Reading => "reading MONTH QUARTER KW KVA",
            Verb::Readings => "readings MONTH FIRST LAST KW KVA",
            Verb::Day => "day MONTH DAY CODE KW/KVA ..",
            Verb::Price => "price MONTH HOUR CENTS",
            Verb::Prices => "prices MONTH FIRST LAST CENTS",
            Verb::Schedule => "schedule MONTH HOUR KW",
            Verb::Schedules => "schedules MONTH FIRST LAST KW",
            Verb::Load => "load readings|prices|schedule MONTH FILE",
            Verb::Bill => "bill MONTH",
            Verb::TrueUp => "true-up MONTH",
            Verb::Finalise => "finalise MONTH",
            Verb::Due => "due MONTH",
            Verb::Total => "total MONTH LINE",
            Verb::Text => "text ENTRY",
            Verb::Ledger => "ledger",
            Verb::Statement => "statement MONTH",
        }
    }
}

// The first of these verbs that has the word.
fn first_named(verbs: &[Verb], word: &str) -> Option<Verb>
    ensures { result ≡ first_named word.now verbs.now }
{
    verbs.iter().copied().find(|verb| verb.word() == word)
}
