// The lowest layer of the register page: words, things with a word form, and the refusals of every call.
#![tactic(auto)]

pub mod forms;
pub mod layout;
pub mod refusals;
pub mod spaces;
pub mod unknown;

pub use forms::{ValueEq, WordForm};
pub use layout::Word;
pub use refusals::{Received, Refusal};
pub use spaces::put_front;
pub use unknown::UnknownNumber;
