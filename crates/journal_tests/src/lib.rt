//! Tests of the journal's lines.

#![tactic(auto)]

#[cfg(test)]
mod lines;
#[cfg(test)]
mod parse_errors;
#[cfg(test)]
mod posts;
