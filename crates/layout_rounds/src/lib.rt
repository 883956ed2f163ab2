// Where text sections and stubs stand: stub groups, call keys, the layout of a set of keys whose stubs are far, and the least set of far
// keys with which all other calls reach (ELFv2 ABI, "Function Call"). All of it is a function of the sizes and alignments of the sections
// and of the places of the calls; nothing is looked up.
#![tactic(auto)]

mod far_set;
mod grouping;
mod keys;
mod laws;
mod near;
mod placing;
mod rounds;
mod settling;
mod shape;

pub use far_set::FarSet;
pub use grouping::{Spot, group};
pub use keys::Keyed;
pub use laws::{
    areas_grow, branches_stay_in_reach, calls_have_keys, one_far_set, reach_shrinks,
    sections_and_stubs_are_apart, sections_and_stubs_lie_in_text, some_far_set,
};
pub use placing::{Places, place};
pub use settling::{LayoutFault, Settled, settle, settle_rounds};
pub use shape::{Shape, ShapeSection, ShapeSite};

#[cfg(test)]
mod tests;
