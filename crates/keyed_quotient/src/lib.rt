//! A quotient whose blocks have keys, by which they are found, and what is drafted over it.
//!
//! Exactly the blocks have keys, and no two share one (`AreKeyed`). A draft shows its further blocks with their keys. Once
//! it is settled, blocks that went have no keys; a later `reserve` drops from the table the keys that no block has.
#![tactic(auto)]

mod compacting;
mod drafting;
mod keyed;
mod numbering;
mod settling;

pub use drafting::KeyedDraft;
pub use keyed::KeyedSummary;
