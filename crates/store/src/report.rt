// What is told of the months on file.
ghost use Rattle.std.specs.Prelude.{◌≡◌, ℕ, ◌+◌, ◌*◌, ◌<◌, ◌≤◌, [], map, min, drop, length, take, ◌↔◌, is_none, IfSome, IsSome, MatchOption, slice_index_or};
ghost use Rattle.std.specs.List.{position, range_with_len};
ghost use Rattle.tariff.specs.Limits.{HourWithin, RowsWithin, most_hours, no_row};
ghost use Rattle.tariff.specs.declared.limits.TheConstants.{MOST_ENERGY};
ghost use Rattle.store.specs.declared.month.TheConstants.{MOST_DAYS};
ghost use Rattle.store.specs.Months.{hour_row};
ghost use Rattle.store.specs.Records.{Keeps, hour_of, reading_of, stretch};

use crate::carried::RATCHET;
use crate::memory::{DAY_HOURS, DAY_QUARTERS, Hour, MONTH_HOURS, MONTH_QUARTERS, Quarter};
use crate::month::{MonthRecord, MonthRecords, State};
use crate::rank::{Kva, Peak, highest_of};
use crate::stretch::stretch;
use tariff::{Capacities, Facts, HourRow, Hours, PlainFacts};

// An hour without a price is named by its place past this, which no quarter reaches.
const PAST_QUARTERS: u64 = 3_000;

/// What a month lacks first before it can be billed: a reading in a quarter, or a price in an hour;
/// by its place from 0.
#[derive(Clone, Copy, PartialEq, Eq, Debug)]
pub enum Missing {
    /// A reading, in the quarter of this place.
    Reading { quarter: u32 },
    /// A price, where every reading is posted, in the hour of this place.
    Price { hour: u32 },
}

impl Missing {
    ghost use Rattle.store.specs.Months.{missing_place};

    /// The place by which a refusal names it: a quarter by itself, an hour by 3,000 more.
    pub fn place(self) -> u64
        ensures { result ≡ missing_place self }
    {
        match self {
            Missing::Reading { quarter } => quarter as u64,
            Missing::Price { hour } => PAST_QUARTERS + hour as u64,
        }
    }
}

/// The rows of a month's hours, by which a rate prices it.
#[derive(Drop)]
pub struct MonthHours {
    pub(crate) rows: [HourRow; MONTH_HOURS],
    pub(crate) count: usize,
    ghost room: { length rows ≡ most_hours },
    ghost few: { count ≤ most_hours },
    ghost within: { (k : ℕ) → HourWithin (slice_index_or rows k no_row) },
}

impl MonthHours {
    ghost use Rattle.store.specs.Rows.{rows_in};

    /// The rows, from the first hour on.
    pub fn hours(&self) -> Hours<'_>
        ensures { result.rows.now ≡ rows_in self.now }
    {
        Hours {
            rows: &self.rows[0..self.count],
        }
    }
}

// As many rows as the longest month has hours, all 0.
fn blank_rows() -> [HourRow; MONTH_HOURS]
    ensures room { length result ≡ most_hours }
    ensures within { RowsWithin result }
{
    [HourRow {
        energy: 0,
        price: 0,
        scheduled: 0,
    }; MONTH_HOURS]
}

// The kW of the four quarters of hour `h`.
fn energy(quarters: &[Quarter], h: usize) -> u32
    requires { 4 * h + 4 ≤ length quarters.now }
    ensures summed { result ≡ (hour_row (map reading_of quarters.now) [] h).energy }
    ensures within { result ≤ MOST_ENERGY }
{
    let first = 4 * h;
    quarters[first].kw()
        + quarters[first + 1].kw()
        + quarters[first + 2].kw()
        + quarters[first + 3].kw()
}

// Writes the row of each hour to its place.
fn fill_rows(rows: &mut [HourRow], quarters: &[Quarter], hours: &[Hour])
    requires room { length hours.now ≤ length rows.old }
    requires quarters_fit { length quarters.now ≡ 4 * length hours.now }
    requires within { RowsWithin rows.old }
    ensures filled { take (length hours.now) rows.new
        ≡ map (hour_row (map reading_of quarters.now) (map hour_of hours.now))
        (range_with_len 0 (length hours.now)) }
    ensures within { RowsWithin rows.new }
{
    for (h, hour) in hours.iter().enumerate() {
        rows[h] = HourRow {
            energy: energy(quarters, h),
            price: hour.price().unwrap_or(0),
            scheduled: hour.scheduled,
        };
    }
}

/// The months in the lent memory, as they are read. Months are named by their place from 0.
#[derive(Clone, Copy)]
pub struct MonthsOnFile<'a> {
    /// The quarters: that at place `q` of the month at place `k` is the record 2,976 × `k` + `q`.
    pub quarters: &'a [Quarter],
    /// The hours: that at place `h` of the month at place `k` is the record 744 × `k` + `h`.
    pub hours: &'a [Hour],
    /// The records of its months.
    pub months: &'a MonthRecords,
    ghost kept: { Keeps months.now quarters.now hours.now },
}

impl MonthsOnFile<'_> {
    ghost use Rattle.store.specs.Facts.{facts_of_month};
    ghost use Rattle.store.specs.Months.{first_missing, first_short_month, hour_rows, peak, quarters_of, hours_of};
    ghost use Rattle.store.specs.Records.{record_in};
    ghost use Rattle.store.specs.Rows.{rows_in};
    ghost use Rattle.store.specs.Stores.{earlier_peaks_of, filed_in, month_in, months_of};

    // The records of the months on file.
    fn records(&self) -> &[MonthRecord]
        ensures { result.now ≡ take self.now.months.now.started
            (drop RATCHET self.now.months.now.records) }
    {
        let records = &self.months.records[..];
        &records[RATCHET..RATCHET + self.months.started]
    }

    // The record of the month at place `k`, as the store keeps it.
    fn month(&self, k: usize) -> Option<MonthRecord>
        ensures { MatchOption result (self.now.months.now.started ≤ k)
            (λ month. (k < self.now.months.now.started)
            × (month ≡ record_in self.now.months.now.records k)) }
    {
        self.records().get(k).copied()
    }

    // The days of the month at place `k`, 0 past the last month, which has no quarter and no hour.
    pub(crate) fn days_of(&self, k: usize) -> usize
        ensures read { result ≡ (month_in (filed_in self.now) k).days }
        ensures within { result ≤ MOST_DAYS }
        ensures there { 0 < result → k < self.now.months.now.started }
        ensures recorded { 0 < result
            → result ≡ (record_in self.now.months.now.records k).days }
    {
        self.record(k).map_or(0, |month| month.days as usize)
    }

    /// The record of the month at place `k`; `None` past the last month.
    pub fn record(&self, k: usize) -> Option<MonthRecord>
        ensures there { IsSome result ↔ (k < length (months_of (filed_in self.now))) }
        ensures days { IfSome result (λ month. month.days ≡ (month_in (filed_in self.now) k).days) }
        ensures state { IfSome result
            (λ month. month.state ≡ (month_in (filed_in self.now) k).state) }
        ensures peak { IfSome result
            (λ month. month.peak ≡ peak (month_in (filed_in self.now) k)) }
    {
        if k < self.months.started {
            Some(self.months.records[RATCHET + k])
        } else {
            None
        }
    }

    // What a memory, with room for each month and so many items a day, has of the month at place
    // `k`; none where it is not on file.
    fn on_file<'m, T>(&self, memory: &'m [T], room: usize, a_day: usize, k: usize) -> &'m [T]
        requires held { room * self.now.months.now.started ≤ length memory.now }
        requires fits { a_day * MOST_DAYS ≤ room }
        ensures read { result.now
            ≡ stretch room k (a_day * (month_in (filed_in self.now) k).days) memory.now }
        ensures counted { length result.now ≡ a_day * (month_in (filed_in self.now) k).days }
        ensures few { length result.now ≤ a_day * MOST_DAYS }
    {
        match self.month(k) {
            Some(month) => stretch(memory, room, k, a_day * month.days as usize),
            None => &[],
        }
    }

    // Its quarters.
    fn readings(&self, k: usize) -> &[Quarter]
        ensures read { map reading_of result.now ≡ (month_in (filed_in self.now) k).readings }
        ensures counted { length result.now ≡ quarters_of (month_in (filed_in self.now) k).days }
        ensures few { length result.now ≤ MONTH_QUARTERS }
    {
        self.on_file(self.quarters, MONTH_QUARTERS, DAY_QUARTERS, k)
    }

    // Its hours.
    fn hours_on_file(&self, k: usize) -> &[Hour]
        ensures read { map hour_of result.now ≡ (month_in (filed_in self.now) k).hours }
        ensures counted { length result.now ≡ hours_of (month_in (filed_in self.now) k).days }
        ensures few { length result.now ≤ MONTH_HOURS }
    {
        self.on_file(self.hours, MONTH_HOURS, DAY_HOURS, k)
    }

    // The first quarter of the month at place `k` that has no reading.
    fn unread(&self, k: usize) -> Option<usize>
        ensures first { result ≡ position is_none (month_in (filed_in self.now) k).readings }
        ensures within { IfSome result (λ quarter. quarter < MONTH_QUARTERS) }
    {
        for (quarter, record) in self.readings(k).iter().enumerate() {
            if record.reading().is_none() {
                return Some(quarter);
            }
        }
        None
    }

    // Its first hour that has no price.
    fn unpriced(&self, k: usize) -> Option<usize>
        ensures first { result
            ≡ position (λ hour. is_none hour.price) (month_in (filed_in self.now) k).hours }
        ensures within { IfSome result (λ hour. hour < MONTH_HOURS) }
    {
        self.hours_on_file(k)
            .iter()
            .position(|hour| hour.price().is_none())
    }

    /// What the month at place `k` lacks first, a reading before a price; `None` where it can be
    /// billed, and past the last month.
    #[tactic(auto, unfolding(crate::specs::Months::first_missing))]
    pub fn missing(&self, k: usize) -> Option<Missing>
        ensures { result ≡ first_missing (month_in (filed_in self.now) k) }
    {
        if let Some(quarter) = self.unread(k) {
            return Some(Missing::Reading {
                quarter: quarter as u32,
            });
        }
        let hour = self.unpriced(k)?;
        Some(Missing::Price { hour: hour as u32 })
    }

    /// The place of the first of the months before place `k` that has not reached a state; `None`
    /// where all have.
    pub fn first_short(&self, state: State, k: usize) -> Option<usize>
        ensures { MatchOption result
            (first_short_month state (months_of (filed_in self.now)) k
            ≡ min (length (months_of (filed_in self.now))) k)
            (λ short. (first_short_month state (months_of (filed_in self.now)) k ≡ short)
            × (short < min (length (months_of (filed_in self.now))) k)) }
    {
        self.records()
            .iter()
            .take(k)
            .position(|month| !month.state.has_reached(state))
    }

    /// The facts of the month at place `k`, as its file stands, at a point of such capacities;
    /// `None` where it is not on file.
    pub fn facts(&self, k: usize, capacities: Capacities) -> Option<Facts>
        ensures there { IsSome result ↔ (k < length (months_of (filed_in self.now))) }
        ensures facts { IfSome result (λ facts. facts.plain
            ≡ facts_of_month capacities.contract capacities.substation
            (earlier_peaks_of (filed_in self.now)) (months_of (filed_in self.now)) k) }
    {
        let month = self.month(k)?;
        let records = &self.months.records[..];
        Some(Facts {
            plain: PlainFacts {
                contract: capacities.contract,
                substation: capacities.substation,
                peak: month.peak,
                peak_kva: highest_of::<Quarter, Kva>(self.readings(k)),
                ratchet_peak: highest_of::<MonthRecord, Peak>(&records[k..k + RATCHET]),
            },
        })
    }

    /// The hours of the month at place `k`, each with its energy, the kW of its four quarters added
    /// up, its price and its scheduled kW; no hours where it is not on file.
    pub fn hours(&self, k: usize) -> MonthHours
        ensures { rows_in result ≡ hour_rows (month_in (filed_in self.now) k) }
    {
        let hours = self.hours_on_file(k);
        let mut rows = blank_rows();
        fill_rows(&mut rows, self.readings(k), hours);
        MonthHours {
            rows,
            count: hours.len(),
        }
    }
}
