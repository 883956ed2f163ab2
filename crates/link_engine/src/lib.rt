// The link: object files become the bytes of one static executable, or the link is refused with the first refusal in the
// stated order. The same files run without an image, where a link of them isn't refused.
#![tactic(auto)]

mod engine;
mod files;
mod laws;
mod overflow;
mod plain;
mod whole_job;

pub use engine::link;
pub use files::{BRANCH_SPAN, Linked, Options, TOC_SPAN};
pub use laws::{linked_texts_stand, links_are_one, plain_runs_are_one};
pub use object_set::{FileBytes, Refusal, Site};
pub use plain::{PlainEnd, plain_of};
pub use ppc_bytes::Steps;

#[cfg(test)]
mod tests;
