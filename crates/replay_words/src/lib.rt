// The protocol of the replay program: a line of text into a call and words, words into a line, arguments taken out of words, an answer put together as
// words.
#![tactic(auto)]

mod put;
mod read;
mod store;
mod tables;
mod take;
mod word;
mod write;

pub use put::Answer;
pub use read::{Line, parse};
pub use store::{Store, filled};
pub use tables::Tables;
pub use take::Case;
pub use word::Word;
pub use write::{print, print_no_case};
