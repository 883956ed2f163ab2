// The members of a library.
ghost use Rattle.std.specs.Prelude.{◌≡◌, ◌≤◌, ◌<◌, length};
ghost use Rattle.std.specs.Iterator.{YieldsFirstBy, item_count};
ghost use Rattle.ppc_archive.specs.Archive.{members_of, name_in, bytes_in};
ghost use Rattle.ppc_archive.specs.inside.Spots.{AreMembers, facts_of};

use crate::header::{HeaderSpot, read_header};
use crate::library_member::Member;
use std::marker::Model;

/// The members of a library that are left, as whose list contracts see them.
#[derive(Drop)]
pub struct MembersLeft<'a> {
    bytes: &'a [u8],
    /// Where the next header begins, and its number.
    spot: HeaderSpot<'a>,
    number: u32,
}

impl<'a> Model for MembersLeft<'a> {
    ghost use Rattle.std.specs.Prelude.{◌-◌, List, length};
    ghost use Rattle.ppc_archive.specs.Archive.{MemberFacts};
    ghost use Rattle.ppc_archive.specs.inside.Spots.{members_left, IsPlace};

    ghost Value = { List MemberFacts };

    ghost view = { λ m. members_left m.bytes.now m.number (length m.bytes.now - m.number) };

    ghost invariant = { λ m. IsPlace m.bytes.now m.number m.spot };
}

impl<'a> MembersLeft<'a> {
    /// The next member, which is passed.
    fn advance(&mut self) -> Option<Member<'a>>
        ensures { YieldsFirstBy facts_of (λ members. members) self.old result self.new }
    {
        while self.spot.at < self.bytes.len() {
            let header = read_header(self.bytes, self.spot)?;
            self.spot = header.next;
            self.number += 1;
            if let Some(member) = header.member {
                return Some(member);
            }
        }
        None
    }
}

impl<'a> Iterator for MembersLeft<'a> {
    type Item = Member<'a>;

    ghost next_gives = { YieldsFirstBy facts_of (λ members. members) };

    ghost remaining = { item_count (λ members. members) };

    fn next(&mut self) -> Option<Member<'a>> {
        self.advance()
    }
}

/// The members of a library, in order, as whose list contracts see them. They borrow its bytes. Reading them takes no memory.
#[derive(Drop)]
pub struct Members<'a> {
    bytes: &'a [u8],
    count: u32,
}

impl<'a> Model for Members<'a> {
    ghost use Rattle.std.specs.Prelude.{List};
    ghost use Rattle.ppc_archive.specs.Archive.{MemberFacts, members_of};
    ghost use Rattle.ppc_archive.specs.inside.Spots.{AreMembers};

    ghost Value = { List MemberFacts };

    ghost view = { λ m. members_of m.bytes.now };

    ghost invariant = { λ m. AreMembers m.bytes.now m.count };
}

impl<'a> Members<'a> {
    /// The members of a library that is whole, of so many members.
    pub(crate) fn of(bytes: &'a [u8], count: u32) -> Members<'a>
        requires { AreMembers bytes.now count }
        ensures { result ≡ members_of bytes.entry.now }
    {
        Members { bytes, count }
    }

    /// How many members there are.
    pub fn count(&self) -> u32
        ensures { result ≡ length self.now }
    {
        self.count
    }

    /// The members one after another, in time that grows with the file's headers alone.
    pub fn iter(&self) -> MembersLeft<'a>
        ensures { result ≡ self.now }
    {
        MembersLeft {
            bytes: self.bytes,
            spot: HeaderSpot { at: 8, names: None },
            number: 0,
        }
    }

    /// Member `i`, which is found by passing those before it.
    fn get(&self, i: u32) -> Member<'a>
        requires { i < length self.now }
        ensures name { result.name.now ≡ name_in self.now i }
        ensures bytes { result.bytes.now ≡ bytes_in self.now i }
    {
        let mut left = self.iter();
        for _ in 0..i {
            left.next();
        }
        let Some(member) = left.next() else {
            return Member {
                name: "",
                bytes: &[],
            };
        };
        member
    }

    /// The name of member `i`.
    pub fn name(&self, i: u32) -> &'a str
        requires { i < length self.now }
        ensures { result.now ≡ name_in self.now i }
    {
        self.get(i).name
    }

    /// The bytes of member `i`.
    pub fn bytes(&self, i: u32) -> &'a [u8]
        requires { i < length self.now }
        ensures { result.now ≡ bytes_in self.now i }
    {
        self.get(i).bytes
    }
}
