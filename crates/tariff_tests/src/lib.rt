//! Tests of the ranking, the tariff, the rates and the riders.

#![tactic(auto)]

#[cfg(test)]
mod chosen;
#[cfg(test)]
mod dos;
#[cfg(test)]
mod money;
#[cfg(test)]
mod months;
#[cfg(test)]
mod piled;
#[cfg(test)]
mod ranks;
#[cfg(test)]
mod sheets;
#[cfg(test)]
mod sts;
#[cfg(test)]
mod support;
#[cfg(test)]
mod xts;
