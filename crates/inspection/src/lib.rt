// What a run of messages says, in plain words.
#![tactic(auto)]

pub mod bytes;
pub mod choices;
pub mod lines;
pub mod reports;
pub mod runs;

pub use bytes::words_of;
pub use choices::Kinds;
pub use lines::answer_line;
pub use reports::report;
pub use runs::read_run;
