//! What a person writes in a line, read as a request: which machine to set, and what to do with it.

#![tactic(auto)]

mod action;
mod expected;
mod misread;
mod reader;
mod request;
mod word;
mod words;

pub use action::Action;
pub use expected::Expected;
pub use misread::Misread;
pub use request::Request;
pub use word::Word;
pub use words::read_words;
