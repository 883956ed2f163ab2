// Where the field of each kind of relocation may stand, and on which words.
ghost use Rattle.std.specs.Prelude.{◌≡◌, ◌≤◌, ◌+◌, length};
ghost use Rattle.ppc_bytes.specs.Bytes.{number_at};
ghost use Rattle.symbol_table.specs.Sites.{rule_of, admits, is_data_sort, is_text_only, size_of, suit, are_left_out, is_thread_local, is_relative, is_doubleword_form, is_relative_pair, is_relative_load};

use object_set::Sort;
use ppc_bytes::word_at;
use reloc_fields::Kind;

/// Whether a relocation with this number is of thread-local storage.
pub fn is_thread_local(number: u32) -> bool
    ensures { result ≡ is_thread_local number }
{
    matches!(number, 67..=108 | 112..=115 | 146..=151)
}

/// Whether a section of this sort has bytes that are no instructions.
fn is_data(sort: Sort) -> bool
    ensures { result ≡ is_data_sort sort }
{
    match sort {
        Sort::Toc | Sort::Writable | Sort::ReadOnly => true,
        Sort::Text | Sort::Zeroed | Sort::Dropped => false,
    }
}

/// The sections in which a field may stand.
#[derive(Clone, Copy)]
pub enum Stand {
    /// It has no bytes, and no place.
    Anywhere,
    /// In text.
    InText,
    /// In data.
    InData,
    /// In either.
    InBoth,
}

/// The words on which a field may stand.
#[derive(Clone, Copy)]
pub enum Words {
    /// Any words.
    AnyWords,
    /// `b`, told by its distance.
    Branch,
    /// `bc`, told by its distance.
    ConditionalBranch,
    /// A load or store of which the displacement is a multiple of 4.
    DoublewordForm,
    /// A prefixed instruction whose base is its own address.
    RelativePair,
    /// `pld` with that base.
    RelativeLoad,
}

/// Where the field of a kind of relocation may stand.
#[derive(Clone, Copy)]
pub struct SiteRule {
    /// In which sections.
    pub stand: Stand,
    /// On which words.
    pub words: Words,
}

/// The rule of a kind.
pub fn rule_of(kind: Kind) -> SiteRule
    ensures { result ≡ rule_of kind }
{
    let (stand, words) = match kind {
        Kind::None | Kind::Tocsave | Kind::PcrelOpt => (Stand::Anywhere, Words::AnyWords),
        Kind::Addr32 | Kind::Rel32 | Kind::Addr64 => (Stand::InBoth, Words::AnyWords),
        Kind::Rel64 | Kind::Toc => (Stand::InData, Words::AnyWords),
        Kind::Addr16
        | Kind::Addr16Lo
        | Kind::Addr16Hi
        | Kind::Addr16Ha
        | Kind::Toc16
        | Kind::Toc16Lo
        | Kind::Toc16Hi
        | Kind::Toc16Ha
        | Kind::Rel16Lo
        | Kind::Rel16Ha => (Stand::InText, Words::AnyWords),
        Kind::Rel24 | Kind::Rel24Notoc => (Stand::InText, Words::Branch),
        Kind::Rel14 => (Stand::InText, Words::ConditionalBranch),
        Kind::Addr16Ds | Kind::Addr16LoDs | Kind::Toc16Ds | Kind::Toc16LoDs => {
            (Stand::InText, Words::DoublewordForm)
        }
        Kind::Pcrel34 => (Stand::InText, Words::RelativePair),
        Kind::GotPcrel34 => (Stand::InText, Words::RelativeLoad),
    };
    SiteRule { stand, words }
}

impl Stand {
    /// Whether a field may stand in a section of a sort.
    pub fn admits(self, sort: Sort) -> bool
        ensures { result ≡ admits self sort }
    {
        match self {
            Stand::Anywhere => true,
            Stand::InText => sort.is_text(),
            Stand::InData => is_data(sort),
            Stand::InBoth => sort.is_text() || is_data(sort),
        }
    }

    /// Whether it may stand in text alone, and so fills an instruction.
    pub fn is_text_only(self) -> bool
        ensures { result ≡ is_text_only self }
    {
        match self {
            Stand::InText => true,
            Stand::Anywhere | Stand::InData | Stand::InBoth => false,
        }
    }
}

/// Whether a word is a branch of this opcode to a place that is told by its distance.
fn is_relative(opcode: u32, word: u32) -> bool
    ensures { result ≡ is_relative opcode word }
{
    word >> 26 == opcode && (word >> 1) % 2 == 0
}

/// Whether a word is a load or store of which the displacement is a multiple of 4.
fn is_doubleword_form(word: u32) -> bool
    ensures { result ≡ is_doubleword_form word }
{
    matches!(word >> 26, 57 | 58 | 62)
}

/// Whether two words are a prefixed instruction whose base is its own address.
fn is_relative_pair(prefix: u32, suffix: u32) -> bool
    ensures { result ≡ is_relative_pair prefix suffix }
{
    prefix >> 26 == 1 && (prefix >> 20) % 2 == 1 && (suffix >> 16) % 32 == 0
}

/// Whether two words are `pld` with that base.
fn is_relative_load(prefix: u32, suffix: u32) -> bool
    ensures { result ≡ is_relative_load prefix suffix }
{
    prefix >> 18 == 0x104 && suffix >> 26 == 57 && (suffix >> 16) % 32 == 0
}

impl Words {
    /// Whether the words at a place suit, but for a form that is left out.
    pub fn suit(self, bytes: &[u8], at: usize) -> bool
        requires { at + size_of self ≤ length bytes.now }
        ensures { let first = number_at 4 bytes.now at in
            let second = number_at 4 bytes.now (at + 4) in
            result ≡ suit self first second }
    {
        match self {
            Words::AnyWords | Words::DoublewordForm => true,
            Words::Branch => is_relative(18, word_at(bytes, at)),
            Words::ConditionalBranch => is_relative(16, word_at(bytes, at)),
            Words::RelativePair => is_relative_pair(word_at(bytes, at), word_at(bytes, at + 4)),
            Words::RelativeLoad => is_relative_load(word_at(bytes, at), word_at(bytes, at + 4)),
        }
    }

    /// Whether a displacement that is a multiple of 4 is asked for, and the word at a place has none.
    pub fn are_left_out(self, bytes: &[u8], at: usize) -> bool
        requires { at + size_of self ≤ length bytes.now }
        ensures { result ≡ are_left_out self (number_at 4 bytes.now at) }
    {
        match self {
            Words::DoublewordForm => !is_doubleword_form(word_at(bytes, at)),
            Words::AnyWords
            | Words::Branch
            | Words::ConditionalBranch
            | Words::RelativePair
            | Words::RelativeLoad => false,
        }
    }
}
