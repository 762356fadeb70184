// Entries: what stands on a page, as values and as printed bytes.
#![tactic(auto)]

pub mod characters;
pub mod kinds;
mod lines;
pub mod registers;
pub mod types;

pub use characters::Character;
pub use kinds::Entry;
pub use registers::RegisterEntry;
pub use types::RegisterType;
