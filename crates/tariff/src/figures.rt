ghost use Rattle.std.specs.Prelude.{◌≡◌, ◌≤◌, length, take};
ghost use Rattle.tariff.specs.declared.figures.TheConstants.{MOST_FIGURES as most_figures};

use crate::figure::Figure;

/// The most figures that a sheet has.
pub const MOST_FIGURES: usize = 8;

/// The figures of a sheet in their order, at most `MOST_FIGURES`, kept without memory of the heap.
#[derive(Clone, Copy)]
pub struct Figures {
    places: [Figure; MOST_FIGURES],
    count: usize,
    ghost sized: { length places ≡ most_figures },
    ghost counted: { count ≤ most_figures },
}

impl Figures {
    ghost use Rattle.tariff.specs.Sheets.{figure_list};

    /// These figures; what is past the first `MOST_FIGURES` is left out.
    pub fn new(figures: &[Figure]) -> Figures
        ensures { figure_list result ≡ take MOST_FIGURES figures.now }
    {
        let count = figures.len().min(MOST_FIGURES);
        let mut places = [Figure::between(0, 0, 0); MOST_FIGURES];
        places[..count].copy_from_slice(&figures[..count]);
        Figures { places, count }
    }

    /// As a slice.
    pub fn as_slice(&self) -> &[Figure]
        ensures list { result.now ≡ figure_list self.now }
        ensures few { length result.now ≤ MOST_FIGURES }
    {
        &self.places[..self.count]
    }
}

/// Which of a sheet's figures are the customer's own: so many from a place on, counted from 0. The
/// published sheet has all the others.
#[derive(Clone, Copy, PartialEq, Eq, Debug)]
pub struct OwnFigures {
    /// The place of the first of them, from 0; 0 where there are none.
    pub first: usize,
    /// How many there are.
    pub count: usize,
}
