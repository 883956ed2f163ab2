// The fields of a member's header, and the names that they write.
ghost use Rattle.std.specs.Prelude.{ℕ, ◌≡◌, ◌≤◌, ◌<◌, ◌^◌, length, List, ◌==◌};
ghost use Rattle.std.specs.List.{list_any};
ghost use Rattle.std.specs.Option.{option_map};
ghost use Rattle.ppc_archive.specs.Archive.{trimmed, is_blank, number_of, before_slash, reference, long_name, short_name};

/// Whether a byte is a blank: a space or a tab.
fn is_blank(byte: u8) -> bool
    ensures { result ≡ is_blank byte }
{
    byte == b' ' || byte == b'\t'
}

/// Bytes without the blanks at their end.
pub fn trimmed(bytes: &[u8]) -> &[u8]
    ensures text { result.now ≡ trimmed bytes.now }
    ensures few { length result.now ≤ length bytes.now }
{
    let mut end = bytes.len();
    while end > 0 {
        if !is_blank(bytes[end - 1]) {
            return &bytes[..end];
        }
        end -= 1;
    }
    &bytes[..0]
}

/// The number that one or more decimal digits write, and nothing else.
#[tactic(auto, unfolding(crate::specs::Archive::number_of))]
pub fn number_of(digits: &[u8]) -> Option<u64>
    requires { length digits.now ≤ 16 }
    ensures { result ≡ number_of digits.now }
{
    let mut number = 0u64;
    for byte in digits {
        if !byte.is_ascii_digit() {
            return None;
        }
        number = number * 10 + u64::from(*byte - b'0');
    }
    if digits.is_empty() {
        return None;
    }
    Some(number)
}

/// The bytes of a table to the first `/` that a newline follows, from a place on.
pub fn before_slash(table: &[u8]) -> Option<&[u8]>
    ensures { option_map (λ name. name.now) result ≡ before_slash table.now }
{
    for i in 0..table.len() {
        if table[i..].starts_with(b"/\n") {
            return Some(&table[..i]);
        }
    }
    None
}

/// What stands for a long name: `/` and a number.
pub fn reference(name: &[u8]) -> Option<u64>
    requires { length name.now ≤ 16 }
    ensures { result ≡ reference name.now }
{
    if name.is_empty() || name[0] != b'/' {
        return None;
    }
    number_of(&name[1..])
}

/// Whether a name holds a `/`.
fn has_slash(name: &[u8]) -> bool
    ensures { result ≡ list_any (λ c. c == 0x2F) name.now }
{
    name.contains(&b'/')
}

/// A name that ends with `/`, without it, or one that holds none.
#[tactic(auto, unfolding(crate::specs::Archive::short_name))]
pub fn short_name(name: &[u8]) -> Option<&[u8]>
    ensures { option_map (λ short. short.now) result ≡ short_name name.now }
{
    if name.is_empty() {
        return Some(name);
    }
    let last = name.len() - 1;
    if name[last] == b'/' {
        return Some(&name[..last]);
    }
    if has_slash(name) { None } else { Some(name) }
}

/// The name at a place of a table of long names.
#[tactic(auto, unfolding(crate::specs::Archive::long_name))]
pub fn long_name(table: Option<&[u8]>, start: u64) -> Option<&[u8]>
    ensures { option_map (λ name. name.now) result
        ≡ long_name (option_map (λ t. t.now) table.entry) start }
{
    let table = table?;
    if start > table.len() as u64 {
        return None;
    }
    before_slash(&table[start as usize..])
}
