// Stamps: who made a message, and as the how-manieth of theirs; and the order in which stamps stand.
#![tactic(auto)]

pub mod kinds;
pub mod numbers;
pub mod pairs;
pub mod tickets;

pub use kinds::{OrdStamp, Stamp};
pub use numbers::{Counter, Site};
pub use pairs::PairStamp;
pub use tickets::TicketStamp;
