//! A canonical store of decision diagrams: equal functions are equal refs.
#![tactic(auto)]

mod decision;
mod laws;
mod reference;
mod slot_table;
mod store;
mod unique_table;

pub use decision::Decision;
pub use laws::{full_law, same_law};
pub use reference::Ref;
pub use store::{Store, StoreError};
pub use unique_table::UniqueTable;

#[cfg(test)]
mod tests;
