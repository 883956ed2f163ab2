// What stands at a place of text.

use call_sites::CallSite;
use object_set::RecordId;
use reloc_fields::Kind;
use symbol_table::PrologueForm;

/// What stands at a place of a job's text, where relocation records say more than the word that the file has there.
#[derive(Clone, Copy)]
pub enum Standing {
    /// No instruction of a text section.
    Outside,

    /// A word that is the file's own: no record's field has bytes of it.
    Word,

    /// A word of which a record's field has bytes, but doesn't begin with it alone.
    Touched,

    /// A call.
    Call(CallSite),

    /// The restore slot behind a call whose caller has a TOC base.
    Restore(CallSite),

    /// The first word of a recognised prologue.
    Entry(PrologueForm),

    /// The second word of a recognised prologue.
    Base,

    /// The access of a recognised pair.
    Access {
        /// The offset of the pair's load.
        head: u64,
    },

    /// A word with which another record's field begins.
    Field {
        /// The record.
        id: RecordId,
        /// The kind of its relocation.
        kind: Kind,
    },
}
