//! The desk's journal: a line read into the call that it writes down, and a call written as a line.

#![tactic(auto)]

mod call;
mod drafts;
mod line_text;
mod numbers;
mod parse_error;
mod post_kind;
mod reader;
mod token;
mod verb;
mod words;

pub use call::Call;
pub use parse_error::ParseError;
pub use post_kind::PostKind;
pub use reader::read;
pub use verb::Verb;
