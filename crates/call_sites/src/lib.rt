// The calls of a link: where each stands, how it comes to its callee, and its words once it is known how far it branches (ELFv2 ABI,
// "Function Call").
#![tactic(auto)]

mod callees;
mod calls;
mod class;
mod finding;
mod laws;
mod list;
mod prologue;
mod site;

pub use callees::text_section;
pub use class::{Callee, Linkage, changes_r2, class_of, entry_offset};
pub use finding::sites;
pub use laws::{restored_sites_have_slots, sites_are_in_order, sites_are_sound};
pub use list::Sites;
pub use prologue::prologue_of;
pub use site::{CallSite, site_words};

#[cfg(test)]
mod tests;
