//! Worked months: examples of the rates and riders, checked together against the definitions.

#![tactic(auto)]

ghost use Rattle.std.specs.Prelude.{◌≡◌, length};
ghost use Rattle.std.specs.List.{AllByRecursion};
ghost use Rattle.worked_months.specs.Months.{Holds, worked_months};

/// How many worked months there are. Each of them holds.
pub fn worked_months() -> usize
    ensures count { result ≡ length worked_months }
    ensures hold { AllByRecursion Holds worked_months }
{
    12
}
