// Codes of points, and a book over memory of its own.
use crate::support::CODE;
use book::{BookMemory, NotPointCode, PointCode};
use std::alloc::AllocError;
use tariff::Refusal;

#[test]
fn a_code_has_eight_bytes(rt: HostRuntime) {
    assert_eq!(rt; PointCode::try_from("POINT001"), Ok(PointCode::from(CODE)));
    assert_eq!(rt; PointCode::try_from("POINT01"), Err(NotPointCode));
    assert_eq!(rt; PointCode::try_from("POINT0001"), Err(NotPointCode));
    assert_eq!(rt; PointCode::from(CODE).bytes(), CODE);
}

#[test]
fn a_book_has_the_months_of_its_memory(rt: HostRuntime) -> Result<(), AllocError> {
    let mut memory = BookMemory::new(rt.alloc(), 1, 14)?;
    let mut book = memory.book();
    assert_eq!(rt; book.open(CODE.into(), 20_000, 30_000, &[]), Ok(()));
    assert_eq!(rt; book.start(31), Ok(1));
    assert_eq!(rt; book.start(28), Err(Refusal::NoMonthFree));
    Ok(())
}
