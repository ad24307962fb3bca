//! The ledger of an attempt: what is to be done with each line of the source and of the destination, and what is known of
//! the lines so far.
#![tactic(auto)]

mod accounts;
mod form;
mod laws;
mod ledger;
mod notes;
mod pending;
mod said;
mod told;
mod verdict;

pub use accounts::{Account, LaneAccount};
pub use form::StateForm;
pub use laws::{ledger_laws, number_laws, pending_laws};
pub use ledger::Ledger;
pub use notes::MOST_LINES;
pub use pending::Pending;
pub use said::Saying;
pub use told::Told;
pub use verdict::{Echoed, LedgerFault, Verdict};
