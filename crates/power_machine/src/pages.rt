// Bytes by pages, of which only those are kept that were written to.
ghost use Rattle.std.specs.Prelude.{◌≡◌, ◌≢◌, ◌+◌, ◌*◌, ◌/◌, ◌%◌, ◌^◌, ◌<◌, ◌≤◌, ◌&&◌, ◌||◌, ◌++◌, ℕ, Bool, List, [], length, map, replicate, nat_le, nat_lt, slice_index, slice_set, true, OnOk, OnErr, IfOk};
ghost use Rattle.power_insns.specs.Arithmetic.{bytes_of};
ghost use Rattle.power_machine.specs.Bytes.{over, spelled};
ghost use Rattle.power_machine.specs.Memory.{bytes_from, put};
ghost use Rattle.power_machine.specs.Paging.{page_of, page_in, is_kept, byte_in};
ghost use Rattle.power_machine.specs.inside.Paged.{ArePages, IsWhole, zeros, byte_on, fresh_for, made_from, kept_in, also_from, AreFreshFrom, AreKept, KeepsAlso, IsBlankFrom, IsTight, has_some};

use crate::bytes::number_in;
use crate::memory::size_of;
use power_insns::meaning::Width;
use std::alloc::{AllocError, Global};
use std::marker::Model;

/// How many addresses a page has.
pub const PAGE: usize = 0x1000;

/// A page. It has its bytes where it is kept, and else none.
#[derive(Drop)]
pub struct Page {
    bytes: Vec<u8>,
}

impl Model for Page {
    ghost use Rattle.std.specs.Prelude.{List, ℕ};

    ghost Value = { List ℕ };

    ghost view = { λ p. p.bytes.items };
}

impl Page {
    // A page that isn't kept.
    fn none(alloc: Global) -> Page
        ensures { result ≡ [] }
    {
        Page {
            bytes: Vec::new(alloc),
        }
    }

    // A kept page of zeros.
    fn zeros(alloc: Global) -> Result<Page, AllocError>
        ensures { IfOk result (λ page. page ≡ zeros 0x1000) }
    {
        Ok(Page {
            bytes: zeros(alloc, PAGE)?,
        })
    }

    fn is_kept(&self) -> bool
        ensures { result ≡ is_kept self.now }
    {
        !self.bytes.is_empty()
    }

    // A page of zeros for one that isn't kept.
    fn fresh_for(&self, alloc: Global) -> Result<Page, AllocError>
        ensures { IfOk result (λ page. page ≡ fresh_for self.now) }
    {
        if self.is_kept() {
            return Ok(Page::none(alloc));
        }
        Page::zeros(alloc)
    }

    // The byte at a place.
    fn byte(&self, at: usize) -> u8
        ensures { result ≡ slice_index self.now at }
    {
        if at < self.bytes.len() {
            self.bytes[at]
        } else {
            0
        }
    }

    // The number in the bytes from a place on.
    fn number_at(&self, at: usize, width: Width) -> u64
        requires whole { IsWhole self.now }
        requires within { at + bytes_of width ≤ 0x1000 }
        ensures value { result ≡ spelled (bytes_from (byte_on self.now) at (bytes_of width)) }
        ensures bound { result < 256 ^ bytes_of width }
    {
        if self.is_kept() {
            number_in(&self.bytes, at, width)
        } else {
            0
        }
    }

    // Puts so many of its bytes from a place on behind others.
    fn push_to(&self, bytes: &mut Vec<u8>, at: usize, count: usize) -> Result<(), AllocError>
        requires whole { IsWhole self.now }
        requires within { at + count ≤ 0x1000 }
        ensures { OnOk result (bytes.new.items ≡ bytes.old.items
            ++ bytes_from (byte_on self.now) at count) }
    {
        if self.is_kept() {
            bytes.extend_from_slice(&self.bytes[at..at + count])?;
        } else {
            push_zeros(bytes, count)?;
        }
        Ok(())
    }

    // Puts bytes at a place of a kept page.
    fn write(&mut self, at: usize, bytes: &[u8])
        requires { at + length bytes.now ≤ length self.old }
        ensures { self.new ≡ over self.old at bytes.now }
    {
        write_in(&mut self.bytes, at, bytes);
    }
}

#[tactic(auto, unfolding(crate::specs::inside::Paged::zeros))]
fn zeros(alloc: Global, count: usize) -> Result<Vec<u8>, AllocError>
    ensures { IfOk result (λ bytes. bytes.items ≡ zeros count) }
{
    let mut bytes = Vec::new(alloc);
    bytes.resize(count, 0)?;
    Ok(bytes)
}

#[tactic(auto, unfolding(crate::specs::inside::Paged::zeros))]
fn push_zeros(bytes: &mut Vec<u8>, count: usize) -> Result<(), AllocError>
    requires { count ≤ 0x1000 }
    ensures { OnOk result (bytes.new.items ≡ bytes.old.items ++ zeros count) }
{
    let len = bytes.len();
    bytes.resize(len + count, 0)?;
    Ok(())
}

fn write_in(items: &mut [u8], from: usize, bytes: &[u8])
    requires { from + length bytes.now ≤ length items.old }
    ensures { items.new ≡ over items.old from bytes.now }
{
    items[from..from + bytes.len()].copy_from_slice(bytes);
}

/// Pages, whose bytes are numbered through.
#[derive(Drop)]
pub struct Pages {
    list: Vec<Page>,
}

impl Model for Pages {
    ghost use Rattle.std.specs.Prelude.{List, ℕ};
    ghost use Rattle.power_machine.specs.inside.Paged.{ArePages};

    ghost Value = { List (List ℕ) };

    ghost view = { λ p. p.list.items };

    ghost invariant = { λ p. ArePages p.list.items };
}

// Pages of zeros for those of so many pages that aren't kept.
fn fresh_pages(alloc: Global, pages: &[Page]) -> Result<Vec<Page>, AllocError>
    ensures { IfOk result (λ fresh. fresh.items ≡ map fresh_for pages.now) }
{
    let mut fresh = Vec::with_capacity(alloc, pages.len())?;
    for page in pages {
        fresh.push(page.fresh_for(alloc)?)?;
    }
    Ok(fresh)
}

impl Pages {
    /// So many pages, of which none is kept.
    fn new(alloc: Global, count: usize) -> Result<Pages, AllocError>
        ensures { IfOk result (λ pages. pages ≡ replicate count []) }
    {
        let mut list = Vec::with_capacity(alloc, count)?;
        for _ in 0..count {
            list.push(Page::none(alloc))?;
        }
        Ok(Pages { list })
    }

    /// Whether the page with an index is kept.
    pub fn keeps(&self, index: usize) -> bool
        ensures { result ≡ kept_in self.now index }
    {
        index < self.list.len() && self.list[index].is_kept()
    }

    // The byte with a number.
    fn byte(&self, at: usize) -> u8
        requires { at < 0x1000 * length self.now }
        ensures { result ≡ byte_in self.now at }
    {
        self.list[at / PAGE].byte(at % PAGE)
    }

    // The number in bytes of one page or two, of which each is looked up.
    fn number_across(&self, from: usize, width: Width) -> u64
        requires within { from + bytes_of width ≤ 0x1000 * length self.now }
        requires low { from + bytes_of width ≤ 2 ^ 31 }
        ensures value { result ≡ spelled (bytes_from (byte_in self.now) from (bytes_of width)) }
        ensures bound { result < 256 ^ bytes_of width }
    {
        let mut bytes = [0; 8];
        for i in 0..size_of(width) as usize {
            bytes[i] = self.byte(from + i);
        }
        number_in(&bytes, 0, width)
    }

    /// The number in the bytes from one on.
    pub fn number_at(&self, from: usize, width: Width) -> u64
        requires within { from + bytes_of width ≤ 0x1000 * length self.now }
        requires low { from + bytes_of width ≤ 2 ^ 31 }
        ensures value { result ≡ spelled (bytes_from (byte_in self.now) from (bytes_of width)) }
        ensures bound { result < 256 ^ bytes_of width }
    {
        let at = from % PAGE;
        if at + size_of(width) as usize <= PAGE {
            self.list[from / PAGE].number_at(at, width)
        } else {
            self.number_across(from, width)
        }
    }

    /// The bytes from one on.
    pub fn copy_of(&self, alloc: Global, from: usize, count: usize) -> Result<Vec<u8>, AllocError>
        requires within { from + count ≤ 0x1000 * length self.now }
        requires low { from + count ≤ 2 ^ 31 }
        ensures { IfOk result (λ v. v.items ≡ bytes_from (byte_in self.now) from count) }
    {
        let mut bytes = Vec::with_capacity(alloc, count)?;
        while bytes.len() < count {
            let at = from + bytes.len();
            let size = count_on_page(at, count - bytes.len());
            self.push_on(&mut bytes, at, size)?;
        }
        Ok(bytes)
    }

    // Puts so many bytes of one page behind others.
    fn push_on(&self, bytes: &mut Vec<u8>, at: usize, count: usize) -> Result<(), AllocError>
        requires within { at + count ≤ 0x1000 * length self.now }
        requires some { 0 < count }
        requires on_page { at % 0x1000 + count ≤ 0x1000 }
        ensures { OnOk result (bytes.new.items ≡ bytes.old.items
            ++ bytes_from (byte_in self.now) at count) }
    {
        self.list[at / PAGE].push_to(bytes, at % PAGE, count)?;
        Ok(())
    }

    // Puts a fresh page in the place of one that isn't kept.
    fn install(&mut self, index: usize, page: Page)
        requires within { index < length self.old }
        requires fresh { page ≡ fresh_for (page_in self.old index) }
        ensures len { length self.new ≡ length self.old }
        ensures made { (i : ℕ) → page_in self.new i ≡ made_from self.old index (index + 1) i }
    {
        if !self.list[index].is_kept() {
            self.list[index] = page;
        }
    }

    // The same from one on.
    fn install_all(&mut self, first: usize, fresh: Vec<Page>)
        requires within { first + length fresh.items ≤ length self.old }
        requires few { first + length fresh.items ≤ 2 ^ 32 }
        requires fresh { AreFreshFrom self.old first fresh.items }
        ensures len { length self.new ≡ length self.old }
        ensures made { (i : ℕ) → page_in self.new i ≡ made_from self.old first
            (first + length fresh.items) i }
    {
        let mut index = first;
        for page in fresh {
            self.install(index, page);
            index += 1;
        }
    }

    // Keeps the pages from one up to another. Where memory is refused none is made.
    fn make(&mut self, alloc: Global, first: usize, stop: usize) -> Result<(), AllocError>
        requires some { first < stop }
        requires within { stop ≤ length self.old }
        requires few { stop ≤ 2 ^ 32 }
        ensures len { length self.new ≡ length self.old }
        ensures kept { OnOk result (kept_in self.new ≡ also_from (kept_in self.old) first stop) }
        ensures bytes { byte_in self.new ≡ byte_in self.old }
        ensures refused { OnErr result (self.new ≡ self.old) }
    {
        if stop - first == 1 && self.list[first].is_kept() {
            return Ok(());
        }
        let fresh = fresh_pages(alloc, &self.list[first..stop])?;
        self.install_all(first, fresh);
        Ok(())
    }

    // Puts bytes at a place of a page that is kept.
    fn put_on(&mut self, at: usize, bytes: &[u8])
        requires within { at % 0x1000 + length bytes.now ≤ 0x1000 }
        requires kept { kept_in self.old (page_of at) ≡ true }
        ensures len { length self.new ≡ length self.old }
        ensures kept { kept_in self.new ≡ kept_in self.old }
        ensures bytes { byte_in self.new ≡ put (byte_in self.old) at bytes.now }
    {
        self.list[at / PAGE].write(at % PAGE, bytes);
    }

    // Puts bytes at a place, page by page.
    fn put(&mut self, from: usize, bytes: &[u8])
        requires within { from + length bytes.now ≤ 0x1000 * length self.old }
        requires low { from + length bytes.now ≤ 2 ^ 31 }
        requires kept { AreKept self.old from (length bytes.now) }
        ensures len { length self.new ≡ length self.old }
        ensures kept { kept_in self.new ≡ kept_in self.old }
        ensures bytes { byte_in self.new ≡ put (byte_in self.old) from bytes.now }
    {
        let mut done = 0;
        while done < bytes.len() {
            let count = count_on_page(from + done, bytes.len() - done);
            self.put_on(from + done, &bytes[done..done + count]);
            done += count;
        }
    }

    /// Puts bytes at a place, and keeps the pages on which they lie. Where memory is refused all stays as it was.
    pub fn write(&mut self, alloc: Global, from: usize, bytes: &[u8]) -> Result<(), AllocError>
        requires within { from + length bytes.now ≤ 0x1000 * length self.old }
        requires low { from + length bytes.now ≤ 2 ^ 31 }
        ensures len { length self.new ≡ length self.old }
        ensures kept { OnOk result (KeepsAlso self.old self.new from (length bytes.now)) }
        ensures bytes { OnOk result (byte_in self.new ≡ put (byte_in self.old) from bytes.now) }
        ensures refused { OnErr result (self.new ≡ self.old) }
    {
        if bytes.is_empty() {
            return Ok(());
        }
        self.make(alloc, from / PAGE, (from + bytes.len() - 1) / PAGE + 1)?;
        self.put(from, bytes);
        Ok(())
    }
}

impl Pages {
    // Puts bytes on one page, where one of them isn't zero, at a place from which on all is zero.
    fn load(&mut self, alloc: Global, from: usize, bytes: &[u8]) -> Result<(), AllocError>
        requires within { from + length bytes.now ≤ 0x1000 * length self.old }
        requires low { from + length bytes.now ≤ 2 ^ 31 }
        requires on_page { from % 0x1000 + length bytes.now ≤ 0x1000 }
        requires nothing { IsBlankFrom from self.old }
        ensures len { length self.new ≡ length self.old }
        ensures bytes { OnOk result (byte_in self.new ≡ put (byte_in self.old) from bytes.now) }
        ensures tight { OnOk result (IsTight self.old → IsTight self.new) }
    {
        if !has_some(bytes) {
            return Ok(());
        }
        self.write(alloc, from, bytes)?;
        Ok(())
    }
}

// How many of so many bytes from a place on lie on its page.
fn count_on_page(at: usize, left: usize) -> usize
    requires { 0 < left }
    ensures some { 0 < result }
    ensures within { result ≤ left }
    ensures on_page { at % 0x1000 + result ≤ 0x1000 }
    ensures most { result < left → at % 0x1000 + result ≡ 0x1000 }
{
    let room = PAGE - at % PAGE;
    if left < room { left } else { room }
}

// Whether one of the bytes isn't zero.
fn has_some(bytes: &[u8]) -> bool
    ensures { result ≡ has_some bytes.now }
{
    bytes.iter().any(|byte| *byte != 0)
}

/// So many pages with these bytes from a place on, and zeros elsewhere. Those that hold only zeros aren't kept.
pub fn pages_with(
    alloc: Global,
    count: usize,
    from: usize,
    bytes: &[u8],
) -> Result<Pages, AllocError>
    requires within { from + length bytes.now ≤ 0x1000 * count }
    requires low { from + length bytes.now ≤ 2 ^ 31 }
    ensures len { IfOk result (λ pages. length pages ≡ count) }
    ensures bytes { IfOk result (λ pages. byte_in pages ≡ put (λ k. 0) from bytes.now) }
    ensures tight { IfOk result (λ pages. IsTight pages) }
{
    let mut pages = Pages::new(alloc, count)?;
    let mut done = 0;
    while done < bytes.len() {
        let size = count_on_page(from + done, bytes.len() - done);
        pages.load(alloc, from + done, &bytes[done..done + size])?;
        done += size;
    }
    Ok(pages)
}
