// What symbols say of a name, and what the name stands for.
ghost use Rattle.std.specs.Prelude.{◌≡◌, ℕ, List};
ghost use Rattle.symbol_table.specs.Candidates.{resolution_of, definition_in, no_candidates};
ghost use Rattle.symbol_table.specs.inside.Names.{larger_common, with_candidate, external_of};

use crate::role::{ExternalSymbol, Role};
use object_set::SymbolId;

/// How large a common is.
#[derive(Clone, Copy)]
pub struct CommonSize {
    /// The size in bytes.
    pub size: u64,
    /// The alignment in bytes.
    pub align: u64,
}

/// What a name stands for.
#[derive(Clone, Copy)]
pub enum Resolution {
    /// The definition that is this symbol.
    Definition(SymbolId),
    /// A common.
    Common(CommonSize),
    /// Nothing.
    Undefined,
}

impl Resolution {
    /// The definition, if it is one.
    pub fn definition(self) -> Option<SymbolId>
        ensures { result ≡ definition_in self }
    {
        match self {
            Resolution::Definition(symbol) => Some(symbol),
            Resolution::Common(_) | Resolution::Undefined => None,
        }
    }
}

/// What symbols say of a name.
#[derive(Clone, Copy)]
pub struct Candidates {
    /// The first GLOBAL definition.
    pub global: Option<SymbolId>,
    /// The file of the second GLOBAL definition.
    pub second: Option<u32>,
    /// The common: the largest size and the largest alignment.
    pub common: Option<CommonSize>,
    /// The first WEAK definition.
    pub weak: Option<SymbolId>,
}

/// A common together with one more: the larger size and the larger alignment.
fn larger_common(common: Option<CommonSize>, size: u64, align: u64) -> CommonSize
    ensures { result ≡ larger_common common size align }
{
    match common {
        None => CommonSize { size, align },
        Some(largest) => CommonSize {
            size: largest.size.max(size),
            align: largest.align.max(align),
        },
    }
}

impl Candidates {
    /// No symbol bears the name.
    pub fn none() -> Candidates
        ensures { result ≡ no_candidates }
    {
        Candidates {
            global: None,
            second: None,
            common: None,
            weak: None,
        }
    }

    /// What is said with one symbol more.
    pub fn with(self, symbol: ExternalSymbol) -> Candidates
        ensures { (name : List ℕ) →
            result ≡ with_candidate self symbol.role (external_of name symbol) }
    {
        let id = SymbolId {
            file: symbol.file,
            symbol: symbol.number,
        };
        let mut candidates = self;
        match symbol.role {
            Role::Global => {
                if self.global.is_some() {
                    candidates.second = self.second.or(Some(symbol.file));
                }
                candidates.global = self.global.or(Some(id));
            }
            Role::Common => {
                candidates.common = Some(larger_common(self.common, symbol.size, symbol.value));
            }
            Role::Weak => candidates.weak = self.weak.or(Some(id)),
            Role::Reference => {}
        }
        candidates
    }

    /// What the name stands for.
    pub fn resolution(self) -> Resolution
        ensures { result ≡ resolution_of self }
    {
        match (self.global, self.common, self.weak) {
            (Some(symbol), _, _) => Resolution::Definition(symbol),
            (None, Some(common), _) => Resolution::Common(common),
            (None, None, Some(symbol)) => Resolution::Definition(symbol),
            (None, None, None) => Resolution::Undefined,
        }
    }
}
