// The store of spent replay tags: a root that says which epochs have begun and where the floor is, and a log of tags
// for each begun epoch.
#![tactic(auto)]

mod faults;
mod known;
mod log_lists;
mod logs;
mod reading;
mod root;
mod standing;
mod store;
#[cfg(test)]
mod store_tests;
mod summary;
mod tag_log;
#[cfg(test)]
mod tests;

pub use faults::{ClaimFault, Objection, OpenStore, RetireFault};
pub use reading::look;
pub use store::SpentStore;
pub use summary::Book;
