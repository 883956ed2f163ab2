// The image of a link: the shape of its text, which the layout is made of; and the bytes of text, with each call, field and stub written
// at its address (ELFv2 ABI, "Function Call" and "Relocation Types"; ELF64, "Program Header").
#![tactic(auto)]

mod addresses;
mod calls;
mod executable;
mod fields;
mod got_loads;
mod layout;
mod places;
mod ready;
mod records;
mod rewriting;
mod sections;
mod shape;
mod stubs;
mod text;
mod toc_loads;

pub use addresses::plans_have_addresses;
pub use executable::segments;
pub use layout::lay_text;
pub use places::{
    branches_reach, laid_texts_are_of_jobs, pairs_are_in_reach, patches_are_apart,
    places_tell_a_text, text_stands_place_by_place, texts_are_laid_out_or_refused,
};
pub use ready::text_is_placed;
pub use rewriting::{texts_are_one, texts_may_stay_plain};
pub use shape::{call_numbered, shape_of};
pub use stubs::stub_bytes;
pub use text::text_bytes;

#[cfg(test)]
mod tests;
