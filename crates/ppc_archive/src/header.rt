// A member's header.
ghost use Rattle.std.specs.Prelude.{◌≡◌, ◌≤◌, ◌<◌, ◌+◌, ◌%◌, length, is_some, IfSome, IfNone, false, true};
ghost use Rattle.std.specs.Option.{option_map};
ghost use Rattle.elf64_records.specs.declared.headers.TheConstants.{FILE_LIMIT};
ghost use Rattle.elf64_records.specs.First.{◌orelse◌, when};
ghost use Rattle.ppc_archive.specs.Archive.{field, is_index, is_name_table, is_special, reference, name_by, text_of, data_of, after, next_spot, is_framed, is_header, member_at};
ghost use Rattle.ppc_archive.specs.inside.Spots.{spot_of, facts_if};

use crate::fields::{long_name, number_of, reference, short_name, trimmed};
use crate::library_member::Member;

/// Where a header begins, and the first table of long names before it.
#[derive(Clone, Copy)]
pub struct HeaderSpot<'a> {
    pub at: usize,
    pub names: Option<&'a [u8]>,
}

/// What a header tells.
#[derive(Clone, Copy)]
pub struct Header<'a> {
    /// The member, if it has one.
    pub member: Option<Member<'a>>,
    /// The spot behind its data.
    pub next: HeaderSpot<'a>,
}

impl Header<'_> {
    /// How many members it has.
    pub fn member_count(&self) -> u32
        ensures count { result ≡ length (facts_if self.now.member) }
        ensures few { result ≤ 1 }
    {
        match self.member {
            Some(_) => 1,
            None => 0,
        }
    }
}

/// The field of a header between two of its places, without the blanks at its end.
#[tactic(auto, unfolding(crate::specs::Archive::field))]
fn field(bytes: &[u8], at: usize, from: usize, to: usize) -> &[u8]
    requires order { from ≤ to }
    requires within { at + to ≤ length bytes.now }
    ensures text { result.now ≡ field bytes.now at from to }
    ensures few { length result.now + from ≤ to }
{
    trimmed(&bytes[at + from..at + to])
}

/// Whether it is the name of an index.
fn is_index(name: &[u8]) -> bool
    ensures { result ≡ is_index name.now }
{
    name == b"/".as_slice() || name == b"/SYM64/".as_slice()
}

/// Whether it is the name of a table of long names.
fn is_name_table(name: &[u8]) -> bool
    ensures { result ≡ is_name_table name.now }
{
    name == b"//".as_slice()
}

/// A name that is text, and not empty.
fn text(name: &[u8]) -> Option<&str>
    ensures { option_map (λ t. t.now) result ≡ text_of (Some name.now) }
{
    if name.is_empty() {
        return None;
    }
    match str::from_utf8(name) {
        Ok(text) => Some(text),
        Err(_) => None,
    }
}

/// The name of a member whose header writes this.
fn member_name<'a>(name: &'a [u8], names: Option<&'a [u8]>) -> Option<&'a str>
    requires { length name.now ≤ 16 }
    ensures { option_map (λ t. t.now) result
        ≡ text_of (name_by (reference name.now) (option_map (λ n. n.now) names.entry) name.now) }
{
    match reference(name) {
        Some(start) => text(long_name(names, start)?),
        None => text(short_name(name)?),
    }
}

/// The data of a framed header.
#[tactic(auto, unfolding(crate::specs::Archive::is_framed, crate::specs::Archive::data_of, crate::specs::Archive::after))]
fn framed_data(bytes: &[u8], at: usize) -> Option<&[u8]>
    requires short { length bytes.now ≤ FILE_LIMIT }
    requires at { at < length bytes.now }
    ensures framed { is_some result ≡ is_framed bytes.now at }
    ensures bytes { IfSome result (λ d. d.now ≡ data_of bytes.now at) }
    ensures within { IfSome result (λ d. at + 60 + length d.now ≤ length bytes.now) }
    ensures after { IfSome result (λ d.
        at + 60 + length d.now + length d.now % 2 ≡ after bytes.now at) }
{
    if bytes.len() - at < 60 || bytes[at + 58] != b'`' || bytes[at + 59] != b'\n' {
        return None;
    }
    let size = number_of(field(bytes, at, 48, 58))?;
    let rest = &bytes[at + 60..];
    if size > rest.len() as u64 {
        return None;
    }
    Some(&rest[..size as usize])
}

/// The first table of long names, where this header follows those before.
fn names_with<'a>(names: Option<&'a [u8]>, name: &[u8], bytes: &'a [u8]) -> Option<&'a [u8]>
    ensures { option_map (λ n. n.now) result
        ≡ option_map (λ n. n.now) names.entry orelse when (is_name_table name.now) bytes.entry.now }
{
    if names.is_none() && is_name_table(name) {
        return Some(bytes);
    }
    names
}

/// What the header at a spot tells, if it is one.
#[tactic(auto, unfolding(crate::specs::Archive::is_header, crate::specs::Archive::member_name, crate::specs::Archive::member_at))]
pub fn read_header<'a>(bytes: &'a [u8], spot: HeaderSpot<'a>) -> Option<Header<'a>>
    requires short { length bytes.now ≤ FILE_LIMIT }
    requires at { spot.at < length bytes.now }
    ensures header { is_some result ≡ is_header bytes.entry.now (spot_of spot.entry) }
    ensures next { IfSome result (λ h.
        spot_of h.next ≡ next_spot bytes.entry.now (spot_of spot.entry)) }
    ensures member { IfSome result (λ h.
        facts_if h.member ≡ member_at bytes.entry.now (spot_of spot.entry)) }
    ensures within { IfSome result (λ h. h.next.at ≤ length bytes.entry.now + 1) }
{
    let bytes_of = framed_data(bytes, spot.at)?;
    let name = field(bytes, spot.at, 0, 16);
    let next = HeaderSpot {
        at: spot.at + 60 + bytes_of.len() + bytes_of.len() % 2,
        names: names_with(spot.names, name, bytes_of),
    };
    if is_index(name) || is_name_table(name) {
        return Some(Header { member: None, next });
    }
    let name = member_name(name, spot.names)?;
    let member = Member {
        name,
        bytes: bytes_of,
    };
    Some(Header {
        member: Some(member),
        next,
    })
}
