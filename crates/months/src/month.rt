// A month of the table, and how it is read from its line:
//
//     C S P A H | COUNTxENERGY@PRICE[/SCHEDULED] .. | RATE | RIDER | ..
use anyhow::{Context, Result, bail};
use journal::{Call, read};
use piles::{RateDraft, RiderDraft};
use std::alloc::{AllocError, Global};
use tariff::{HourRow, PlainFacts};

/// The numbers of a month as they are written, within their limits or not. The riders are piled upwards.
#[derive(Drop)]
pub(crate) struct Month {
    pub(crate) facts: PlainFacts,
    pub(crate) hours: Vec<HourRow>,
    pub(crate) rate: RateDraft,
    pub(crate) riders: Vec<RiderDraft>,
}

fn words(alloc: Global, text: &str) -> Result<Vec<&str>, AllocError> {
    text.split_whitespace().collect(alloc)
}

fn read_facts(words: &[&str]) -> Result<PlainFacts> {
    match *words {
        [contract, substation, peak, peak_kva, ratchet_peak] => Ok(PlainFacts {
            contract: contract.parse()?,
            substation: substation.parse()?,
            peak: peak.parse()?,
            peak_kva: peak_kva.parse()?,
            ratchet_peak: ratchet_peak.parse()?,
        }),
        _ => bail!("facts are C S P A H"),
    }
}

// How many hours, and one of them.
fn read_hours_word(word: &str) -> Result<(u16, HourRow)> {
    let (count, hour) = word.split_once('x').context("hours are COUNTx..")?;
    let (energy, hour) = hour.split_once('@').context("an hour is ENERGY@PRICE")?;
    let (price, scheduled) = hour.split_once('/').unwrap_or((hour, "0"));
    let row = HourRow {
        energy: energy.parse()?,
        price: price.parse()?,
        scheduled: scheduled.parse()?,
    };
    Ok((count.parse()?, row))
}

fn read_hours(alloc: Global, text: &str) -> Result<Vec<HourRow>> {
    let mut hours = Vec::new(alloc);
    for word in text.split_whitespace() {
        let (count, row) = read_hours_word(word)?;
        for _ in 0..count {
            hours.push(row)?;
        }
    }
    Ok(hours)
}

// A rate is written as on a line of a journal, after its first word.
fn read_rate(alloc: Global, text: &str) -> Result<RateDraft> {
    let line = format!(in alloc; "rate {text}")?;
    match read(alloc, &line)? {
        Some(Call::Rate(draft)) => Ok(draft),
        _ => bail!("no rate"),
    }
}

// And so is a rider.
fn read_rider(alloc: Global, text: &str) -> Result<RiderDraft> {
    let line = format!(in alloc; "rider {text}")?;
    match read(alloc, &line)? {
        Some(Call::Rider(draft)) => Ok(draft),
        _ => bail!("no rider"),
    }
}

/// The month of a line; none of an empty one, or of one that is only a comment.
pub(crate) fn read_month(alloc: Global, line: &str) -> Result<Option<Month>> {
    let (text, _) = line.split_once('#').unwrap_or((line, ""));
    if text.trim().is_empty() {
        return Ok(None);
    }
    let mut parts = text.split('|');
    let facts = read_facts(&words(alloc, parts.next().context("no facts")?)?)?;
    let hours = read_hours(alloc, parts.next().context("no hours")?)?;
    let rate = read_rate(alloc, parts.next().context("no rate")?)?;
    let mut riders = Vec::new(alloc);
    for part in parts {
        riders.push(read_rider(alloc, part)?)?;
    }
    Ok(Some(Month {
        facts,
        hours,
        rate,
        riders,
    }))
}

#[cfg(test)]
mod tests {
    use super::*;
    use std::test::Fail;

    #[test]
    fn reads_what_is_written(rt: HostRuntime) -> Result<(), Fail> {
        let line = "5 6 7 8 9 | 2x10@11/12 1x13@14 | sts -3 4 | psc 7 | energy 8 -9 # a note | 1";
        let Some(month) = read_month(rt.alloc(), line)? else {
            return Err(Fail::new("no month"));
        };
        let facts = month.facts;
        assert_eq!(rt; (facts.contract, facts.substation), (5, 6));
        assert_eq!(rt; (facts.peak, facts.peak_kva, facts.ratchet_peak), (7, 8, 9));
        assert_eq!(rt; month.hours.len(), 3);
        for (row, wanted) in month
            .hours
            .iter()
            .zip([(10, 11, 12), (10, 11, 12), (13, 14, 0)])
        {
            assert_eq!(rt; (row.energy, row.price, row.scheduled), wanted);
        }
        let RateDraft::Sts(rate) = &month.rate else {
            return Err(Fail::new("another rate"));
        };
        assert_eq!(rt; (rate.loss_factor, rate.unit_rating), (-3, 4));
        assert_eq!(rt; rate.unit_connection, 25_900);
        let [RiderDraft::Credit(credit), RiderDraft::Energy(energy)] = &*month.riders else {
            return Err(Fail::new("other riders"));
        };
        assert_eq!(rt;
            (credit.number, credit.first, credit.fixed),
            (7, 217_500, 386_700)
        );
        assert_eq!(rt; (energy.number, energy.rate), (8, -9));
        Ok(())
    }

    #[test]
    fn passes_over_comments(rt: HostRuntime) -> Result<(), Fail> {
        for line in ["", "  ", "# 5 6 7 8 9 | | dts", "  # "] {
            assert!(rt; read_month(rt.alloc(), line)?.is_none());
        }
        Ok(())
    }

    #[test]
    fn misreads(rt: HostRuntime) -> Result<(), Fail> {
        for line in [
            "5 6 7 8",
            "5 6 7 8 9 | ",
            "5 6 7 8 | | dts",
            "5 6 7 8 -9 | | dts",
            "5 6 7 8 4294967296 | | dts",
            "5 6 7 8 9 | 2*10@11 | dts",
            "5 6 7 8 9 | 2x10 | dts",
            "5 6 7 8 9 | 2x10@11/ | dts",
            "5 6 7 8 9 | 65536x10@11 | dts",
            "5 6 7 8 9 | | ",
            "5 6 7 8 9 | | cts",
            "5 6 7 8 9 | | dts 1 2 3 4 5 6 7",
            "5 6 7 8 9 | | dos 1",
            "5 6 7 8 9 | | dts | ",
            "5 6 7 8 9 | | dts | psc",
            "5 6 7 8 9 | | dts | energy 1 9223372036854775808",
        ] {
            assert!(rt; read_month(rt.alloc(), line).is_err());
        }
        Ok(())
    }
}
