// What is written to a month's stretch of the lent memory, and the highest kW read from it.
ghost use Rattle.std.specs.Prelude.{◌≡◌, ◌+◌, ◌*◌, ◌<◌, ◌≤◌, map, drop, length, replicate, take, Some, None};
ghost use Rattle.std.specs.List.{prefix_len};
ghost use Rattle.std.proofs.lemmas.List.Edits.{sets};
ghost use Rattle.tariff.specs.Limits.{most_demand};
ghost use Rattle.store.specs.Months.{hours_of, kw_of, new_hour, quarters_of, top};
ghost use Rattle.store.specs.Posts.{reading_within};
ghost use Rattle.store.specs.Records.{hour_of, peak_in, reading_of, stretch};
ghost use Rattle.store.specs.declared.memory.TheConstants.{MONTH_HOURS, MONTH_QUARTERS};

use crate::memory::{DAY_HOURS, DAY_QUARTERS, Hour, MONTH_HOURS, MONTH_QUARTERS, Quarter};
use crate::post::Reading;
use crate::rank::{Kw, highest_of};

// The first `n` items of the month at place `k` in a memory where each month has `room`.
pub(crate) fn stretch<T>(memory: &[T], room: usize, k: usize, n: usize) -> &[T]
    requires { room * k + n ≤ length memory.now }
    ensures { result.now ≡ stretch room k n memory.now }
{
    let from = room * k;
    &memory[from..from + n]
}

// The highest kW of the month at place `k`, of so many days.
pub(crate) fn month_peak(quarters: &[Quarter], k: usize, days: usize) -> u32
    requires { MONTH_QUARTERS * k + quarters_of days ≤ length quarters.now }
    ensures counted { result ≡ peak_in quarters.now k days }
    ensures within { result ≤ most_demand }
{
    let month = stretch(quarters, MONTH_QUARTERS, k, DAY_QUARTERS * days);
    highest_of::<Quarter, Kw>(month)
}

// The highest kW of `n` quarters from a place on.
pub(crate) fn part_peak(quarters: &[Quarter], first: usize, n: usize) -> u32
    requires { first + n ≤ length quarters.now }
    ensures counted { result ≡ top (map kw_of (take n (drop first (map reading_of quarters.now)))) }
    ensures within { result ≤ most_demand }
{
    highest_of::<Quarter, Kw>(&quarters[first..first + n])
}

// The highest kW of the month at place `k`, of so many days, now that a part of it was written
// over: of what it was, and what that of the part was before and is. Only a part that lost the
// month's highest has the month searched again.
pub(crate) fn peak_after(
    quarters: &[Quarter],
    k: usize,
    days: usize,
    kept: u32,
    before: u32,
    posted: u32,
) -> u32
    requires in_bounds { MONTH_QUARTERS * k + quarters_of days ≤ length quarters.now }
    requires kept_within { kept ≤ most_demand }
    requires posted_within { posted ≤ most_demand }
    requires over { kept ≤ posted → peak_in quarters.now k days ≡ posted }
    requires under { before < kept → posted < kept → peak_in quarters.now k days ≡ kept }
    ensures counted { result ≡ peak_in quarters.now k days }
    ensures within { result ≤ most_demand }
{
    if posted >= kept {
        posted
    } else if before < kept {
        kept
    } else {
        month_peak(quarters, k, days)
    }
}

// Writes readings into the stretch of a month, over as many quarters from a place in it on.
fn write_into(month: &mut [Quarter], from: usize, readings: &[Reading])
    requires there { from + length readings.now ≤ length month.old }
    requires within { prefix_len reading_within readings.now ≡ length readings.now }
    ensures { map reading_of month.new
        ≡ sets (map reading_of month.old) from (map Some readings.now) }
{
    for (i, reading) in readings.iter().enumerate() {
        month[from + i] = Quarter::holding(*reading);
    }
}

// Readings over as many quarters of the month at place `k`, of so many days: the month's own
// stretch alone is passed on.
pub(crate) fn write(
    quarters: &mut [Quarter],
    k: usize,
    days: usize,
    from: usize,
    readings: &[Reading],
)
    requires in_bounds { MONTH_QUARTERS * k + quarters_of days ≤ length quarters.old }
    requires there { from + length readings.now ≤ quarters_of days }
    requires within { prefix_len reading_within readings.now ≡ length readings.now }
    ensures written { map reading_of quarters.new
        ≡ sets (map reading_of quarters.old) (MONTH_QUARTERS * k + from) (map Some readings.now) }
    ensures size { length quarters.new ≡ length quarters.old }
{
    let first = MONTH_QUARTERS * k;
    write_into(
        &mut quarters[first..first + DAY_QUARTERS * days],
        from,
        readings,
    );
}

// Marks the quarters and the hours of the month at place `k`, of so many days, as never posted.
pub(crate) fn clear(quarters: &mut [Quarter], hours: &mut [Hour], k: usize, days: usize)
    requires quarters_there { MONTH_QUARTERS * k + quarters_of days ≤ length quarters.old }
    requires hours_there { MONTH_HOURS * k + hours_of days ≤ length hours.old }
    ensures quarters { map reading_of quarters.new
        ≡ sets (map reading_of quarters.old) (MONTH_QUARTERS * k)
        (replicate (quarters_of days) None) }
    ensures hours { map hour_of hours.new
        ≡ sets (map hour_of hours.old) (MONTH_HOURS * k) (replicate (hours_of days) new_hour) }
    ensures quarters_size { length quarters.new ≡ length quarters.old }
    ensures hours_size { length hours.new ≡ length hours.old }
{
    let quarter = MONTH_QUARTERS * k;
    let hour = MONTH_HOURS * k;
    quarters[quarter..quarter + DAY_QUARTERS * days].fill(Quarter::NEVER_POSTED);
    hours[hour..hour + DAY_HOURS * days].fill(Hour::NEVER_POSTED);
}
