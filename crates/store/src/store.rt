// The months on file, as they change.
ghost use Rattle.std.specs.Prelude.{◌≡◌, ◌+◌, ◌*◌, ◌<◌, ◌≤◌, [], ◌∷◌, ◌++◌, length, is_ok, true, OnErr, OnOk};
ghost use Rattle.std.specs.List.{prefix_len};
ghost use Rattle.store.specs.Records.{Keeps};
ghost use Rattle.store.specs.declared.memory.TheConstants.{MONTH_HOURS, MONTH_QUARTERS};
ghost use Rattle.store.specs.declared.month.TheConstants.{MOST_DAYS, MOST_MONTHS};

use crate::carried::{self, CannotCarry, RATCHET};
use crate::memory::{DAY_QUARTERS, Hour, MONTH_HOURS, MONTH_QUARTERS, Quarter};
use crate::month::{LEAST_DAYS, MOST_DAYS, MOST_MONTHS, MonthRecord, MonthRecords, State};
use crate::post::{Post, PostError, Reading, day_fault};
use crate::report::MonthsOnFile;
use crate::stretch::{clear, part_peak, peak_after, write};
use tariff::Refusal;

/// The months started in the lent memory, with the peaks of the months before them. Months are
/// named by their place from 0, and so are the quarters, hours and days of a month. Whoever lends
/// keeps what it lends: each call leaves its memory behind the same references, and a refused one
/// leaves every record in it as it was.
#[derive(Drop)]
pub struct Store<'q, 'h, 'm> {
    /// The quarters: that at place `q` of the month at place `k` is the record 2,976 × `k` + `q`.
    pub quarters: &'q mut [Quarter],
    /// The hours: that at place `h` of the month at place `k` is the record 744 × `k` + `h`.
    pub hours: &'h mut [Hour],
    /// The records of its months.
    pub months: &'m mut MonthRecords,
    ghost kept: { Keeps months.now quarters.now hours.now },
}

impl Store<'_, '_, '_> {
    ghost use Rattle.store.specs.Months.{earlier_peaks, can_carry, new_month, quarters_of, advanced};
    ghost use Rattle.store.specs.Posts.{month_with_day, month_with_post, post_answer, post_day_answer, reading_within, with_readings};
    ghost use Rattle.store.specs.Records.{record_in};
    ghost use Rattle.store.specs.Stores.{Alters, SameMemory, capacity_of, earlier_peaks_of, filed, filed_in, month_in, months_of, start_answer};

    // As they are read.
    fn on_file(&self) -> MonthsOnFile<'_>
        ensures { filed_in result ≡ filed self.now }
    {
        MonthsOnFile {
            quarters: self.quarters,
            hours: self.hours,
            months: self.months,
        }
    }

    // The days of the month at place `k`, 0 past the last month, which has no quarter and no hour.
    fn days_of(&self, k: usize) -> usize
        ensures read { result ≡ (month_in (filed self.now) k).days }
        ensures within { result ≤ MOST_DAYS }
        ensures there { 0 < result → k < self.now.months.now.started }
        ensures recorded { 0 < result
            → result ≡ (record_in self.now.months.now.records k).days }
    {
        self.on_file().days_of(k)
    }

    // How many months the memory holds.
    fn capacity(&self) -> usize
        ensures held { result ≡ capacity_of (filed self.now) }
        ensures few { self.now.months.now.started < result
            → self.now.months.now.started < MOST_MONTHS }
        ensures quarters_fit { self.now.months.now.started < result
            → MONTH_QUARTERS * (self.now.months.now.started + 1) ≤ length self.now.quarters.now }
        ensures hours_fit { self.now.months.now.started < result
            → MONTH_HOURS * (self.now.months.now.started + 1) ≤ length self.now.hours.now }
    {
        let quarters = self.quarters.len() / MONTH_QUARTERS;
        let hours = self.hours.len() / MONTH_HOURS;
        MOST_MONTHS.min(quarters.min(hours))
    }

    /// Starts the next month, of 28 to 31 days, with nothing posted, and answers its number, from 1.
    /// Refused where the memory is full, and where months have not so many days.
    pub fn start(&mut self, days: u32) -> Result<u32, Refusal>
        ensures result { result ≡ start_answer
            (capacity_of (filed self.old)) (length (months_of (filed self.old))) days }
        ensures months { OnOk result (months_of (filed self.new)
            ≡ months_of (filed self.old) ++ (new_month days ∷ [])) }
        ensures refused { OnErr result (self.new ≡ self.old) }
        ensures before { earlier_peaks_of (filed self.new) ≡ earlier_peaks_of (filed self.old) }
        ensures capacity { capacity_of (filed self.new) ≡ capacity_of (filed self.old) }
        ensures memory { SameMemory self.old self.new }
    {
        if self.months.started >= self.capacity() {
            return Err(Refusal::NoMonthFree);
        }
        if days < LEAST_DAYS || days > MOST_DAYS {
            return Err(Refusal::DaysOutside);
        }
        let quarters = &mut *self.quarters;
        let hours = &mut *self.hours;
        let months = &mut *self.months;
        let k = months.started;
        clear(quarters, hours, k, days as usize);
        months.records[RATCHET + k] = MonthRecord {
            days: days as u8,
            state: State::Open,
            peak: 0,
        };
        months.started = k + 1;
        Ok(k as u32 + 1)
    }

    /// Carries the peaks of the months before month 1, the latest first, in kW. Refused where there
    /// are more than 24 or one is above 1,000,000.
    pub fn carry(&mut self, carried: &[u32]) -> Result<(), CannotCarry>
        ensures result { is_ok result ≡ can_carry carried.now }
        ensures before { OnOk result
            (earlier_peaks_of (filed self.new) ≡ earlier_peaks carried.now) }
        ensures refused { OnErr result (self.new ≡ self.old) }
        ensures months { months_of (filed self.new) ≡ months_of (filed self.old) }
        ensures capacity { capacity_of (filed self.new) ≡ capacity_of (filed self.old) }
        ensures quarters { self.new.quarters.now ≡ self.old.quarters.now }
        ensures hours { self.new.hours.now ≡ self.old.hours.now }
        ensures memory { SameMemory self.old self.new }
    {
        if !carried::can_carry(carried) {
            return Err(CannotCarry);
        }
        let months = &mut *self.months;
        let mut records = months.records;
        carried::write(&mut records[..RATCHET], carried);
        months.records = records;
        Ok(())
    }

    /// Takes the month at place `k` on to a state; one that has come as far, or further, stays as it
    /// is. There is nothing to do past the last month.
    pub fn advance(&mut self, k: usize, state: State)
        ensures month { Alters k (advanced state) (filed self.old) (filed self.new) }
        ensures quarters { self.new.quarters.now ≡ self.old.quarters.now }
        ensures hours { self.new.hours.now ≡ self.old.hours.now }
        ensures memory { SameMemory self.old self.new }
    {
        if k >= self.months.started {
            return;
        }
        if !self.months.records[RATCHET + k].state.has_reached(state) {
            self.months.records[RATCHET + k].state = state;
        }
    }

    // Writes readings within their limits over as many quarters of the month at place `k`, and
    // keeps its highest kW.
    fn write_readings(&mut self, k: usize, from: usize, readings: &[Reading])
        requires started { k < self.old.months.now.started }
        requires there { from + length readings.now
            ≤ quarters_of (record_in self.old.months.now.records k).days }
        requires within { prefix_len reading_within readings.now ≡ length readings.now }
        ensures month { Alters k (with_readings from readings.now)
            (filed self.old) (filed self.new) }
        ensures memory { SameMemory self.old self.new }
    {
        let quarters = &mut *self.quarters;
        let months = &mut *self.months;
        let first = MONTH_QUARTERS * k + from;
        let record = months.records[RATCHET + k];
        let days = record.days as usize;
        let before = part_peak(quarters, first, readings.len());
        write(quarters, k, days, from, readings);
        let posted = part_peak(quarters, first, readings.len());
        let peak = peak_after(quarters, k, days, record.peak, before, posted);
        months.records[RATCHET + k].peak = peak;
    }

    // Writes a reading within its limits over a quarter of the month at place `k`, and keeps its
    // highest kW: as `write_readings` does of a list of one, with no list to go over.
    fn write_reading(&mut self, k: usize, quarter: usize, reading: Reading)
        requires started { k < self.old.months.now.started }
        requires there { quarter < quarters_of (record_in self.old.months.now.records k).days }
        requires within { reading_within reading ≡ true }
        ensures month { Alters k (with_readings quarter (reading ∷ []))
            (filed self.old) (filed self.new) }
        ensures memory { SameMemory self.old self.new }
    {
        let quarters = &mut *self.quarters;
        let months = &mut *self.months;
        let place = MONTH_QUARTERS * k + quarter;
        let record = months.records[RATCHET + k];
        let days = record.days as usize;
        let before = quarters[place].kw();
        quarters[place] = Quarter::holding(reading);
        let peak = peak_after(quarters, k, days, record.peak, before, reading.kw);
        months.records[RATCHET + k].peak = peak;
    }

    /// Posts to a quarter or an hour of the month at place `k`, where the last post stands. A month
    /// past the last one has no place.
    pub fn post(&mut self, k: usize, place: usize, post: Post) -> Result<(), PostError>
        ensures result { result ≡ post_answer (month_in (filed self.old) k) place post }
        ensures posted { OnOk result
            (Alters k (month_with_post place post) (filed self.old) (filed self.new)) }
        ensures refused { OnErr result (self.new ≡ self.old) }
        ensures memory { SameMemory self.old self.new }
    {
        if place >= post.places(self.days_of(k)) {
            return Err(PostError::NoSuchPlace);
        }
        if !post.is_within() {
            return Err(PostError::OutsideLimit { place: 0 });
        }
        match post {
            Post::Reading(reading) => self.write_reading(k, place, reading),
            Post::Price(price) => self.hours[MONTH_HOURS * k + place].price = price,
            Post::Scheduled(kw) => self.hours[MONTH_HOURS * k + place].scheduled = kw,
        }
        Ok(())
    }

    /// Posts the 96 readings of a day of the month at place `k`, where the last post stands; all or
    /// none of them. A month past the last one has no day.
    pub fn post_day(&mut self, k: usize, day: usize, readings: &[Reading]) -> Result<(), PostError>
        ensures result { result ≡ post_day_answer (month_in (filed self.old) k) day readings.now }
        ensures posted { OnOk result (Alters k (month_with_day day readings.now)
            (filed self.old) (filed self.new)) }
        ensures refused { OnErr result (self.new ≡ self.old) }
        ensures memory { SameMemory self.old self.new }
    {
        if day >= self.days_of(k) {
            return Err(PostError::NoSuchPlace);
        }
        if let Some(place) = day_fault(readings) {
            return Err(PostError::OutsideLimit { place });
        }
        self.write_readings(k, DAY_QUARTERS * day, readings);
        Ok(())
    }
}
