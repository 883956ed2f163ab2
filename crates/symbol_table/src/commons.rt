// The commons, numbered in first-seen order of their names.
ghost use Rattle.std.specs.Prelude.{◌≡◌, ◌++◌, IfOk, OnOk};
ghost use Rattle.symbol_table.specs.Candidates.{resolution_of, common_in};
ghost use Rattle.symbol_table.specs.inside.Commons.{common_list, AreCommons};

use crate::candidates::{Candidates, CommonSize, Resolution};
use std::alloc::{AllocError, Global};

/// The commons in first-seen order of their names, and for each name how many commons stand before it.
#[derive(Drop)]
pub struct Commons {
    pub sizes: Vec<CommonSize>,
    pub numbers: Vec<u64>,
}

/// Puts the common of a name behind others, where the name stands for one.
fn push_common(sizes: &mut Vec<CommonSize>, candidates: Candidates) -> Result<(), AllocError>
    ensures { OnOk result (
        sizes.new.items ≡ sizes.old.items ++ common_list (common_in (resolution_of candidates))) }
{
    if let Resolution::Common(common) = candidates.resolution() {
        sizes.push(common)?;
    }
    Ok(())
}

/// The commons of names of which so much is said.
pub fn commons_of(alloc: Global, candidates: &[Candidates]) -> Result<Commons, AllocError>
    ensures { IfOk result (AreCommons candidates.now) }
{
    let mut sizes = Vec::new(alloc);
    let mut numbers = Vec::new(alloc);
    for (i, candidate) in candidates.iter().enumerate() {
        numbers.push(sizes.len() as u64)?;
        push_common(&mut sizes, *candidate)?;
    }
    Ok(Commons { sizes, numbers })
}
