// Messages, and their words.
#![tactic(auto)]

pub mod cutting;
pub mod model;
mod reading;
mod writer;
mod writing;

pub use cutting::piece_len;
pub use model::{Message, Operation, Place, Side, Tag};
