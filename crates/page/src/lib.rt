// The register page: a replicated list of entries, kept in slots that the caller lends.
#![tactic(auto)]

pub mod found;
mod named;
pub mod pages;
pub mod tokens;
mod unsent;

pub use found::Found;
pub use pages::Page;
pub use readings::Reading;
pub use slots::Slot;
pub use tokens::Token;
