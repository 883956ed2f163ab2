// Static libraries: the members of a file in `ar` form (System V ABI, "Archive File"), and which of them a link takes.
#![tactic(auto)]

mod archive;
mod choice;
mod expand;
mod fault;
mod fields;
mod header;
mod job;
mod laws;
mod library_member;
mod member_list;
mod names;
mod read;

pub use archive::{is_library, members};
pub use fault::ChooseFault;
pub use job::choose;
pub use laws::files_are_chosen_once;
pub use library_member::Member;
pub use member_list::Members;

#[cfg(test)]
mod tests;
