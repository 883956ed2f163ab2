// Pairs of a load of an address and an access through it, of which a link makes one instruction (ELFv2 ABI, "Relocation Descriptions":
// R_PPC64_PCREL_OPT and R_PPC64_GOT_PCREL34), and the words of pc-relative loads that are rewritten.
#![tactic(auto)]

mod gathered;
mod laws;
mod order;
mod recognised;
mod rewriting;
mod text_pairs;
mod words;

pub use laws::{
    accesses_are_alone, loads_are_sound, loads_have_one_access, pairs_are_apart, pairs_reach,
};
pub use recognised::pairs;
pub use rewriting::{rewrite_got, rewrite_pair};
pub use text_pairs::{Pairs, TextPair};
pub use words::{ShortAccess, short_access};

#[cfg(test)]
mod tests;
