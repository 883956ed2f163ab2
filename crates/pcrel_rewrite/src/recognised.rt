// Which of the pairs that records ask for are recognised, file by file.
ghost use Rattle.std.specs.Prelude.{◌≡◌, ◌<◌, ◌^◌, ◌↔◌, ℕ, false, IfOk, OnOk, IsTrue, length};
ghost use Rattle.std.specs.List.{Contains};
ghost use Rattle.std.specs.List.Sorted.{IsPermutation, IsNonDecreasingBy};
ghost use Rattle.object_set.specs.Files.{file_at};
ghost use Rattle.symbol_table.specs.declared.target.CodePlace.{CodePlace};
ghost use Rattle.pcrel_rewrite.specs.declared.text_pairs.TextPair.{TextPair};
ghost use Rattle.pcrel_rewrite.specs.Pairs.{ArePairs};
ghost use Rattle.pcrel_rewrite.specs.inside.Joins.{Joins, Before, TakesIn};
ghost use Rattle.pcrel_rewrite.specs.inside.Order.{rank};
ghost use Rattle.pcrel_rewrite.specs.inside.Recognised.{AskedOf, IsFree, IsTaken, TakenAt, Repeats, IsRecognisedIn};

use crate::gathered::Gathered;
use crate::order::{comes_before, place_order};
use crate::text_pairs::{Pairs, TextPair, sort_heads};
use ppc_bytes::Memory;
use std::alloc::{AllocError, Global};
use symbol_table::{CodePlace, FileFields, Resolved};

/// Whether two places are one.
fn is_same(place: CodePlace, other: CodePlace) -> bool
    ensures is { IsTrue result ↔ (place ≡ other) }
    ensures fits { place.offset < 2 ^ 64 }
    ensures other_fits { other.offset < 2 ^ 64 }
{
    place.section == other.section && place.offset == other.offset
}

/// Puts places in order.
fn sort_places(places: &mut Vec<CodePlace>)
    ensures same { IsPermutation places.old.items places.new.items }
    ensures sorted { IsNonDecreasingBy rank places.new.items }
{
    places.sort_unstable_by(|p, q| place_order(*p, *q));
}

/// Whether a place is one of places in order.
fn contains(places: &[CodePlace], place: CodePlace) -> bool
    requires { IsNonDecreasingBy rank places.now }
    ensures { IsTrue result ↔ Contains places.now place }
{
    let next = places.partition_point(|p| comes_before(*p, place));
    match places.get(next) {
        Some(found) => is_same(*found, place),
        None => false,
    }
}

/// Whether no record's field has bytes behind the load of a pair up to the end of its access.
fn is_free(resolved: &Resolved, fields: &FileFields, pair: TextPair) -> bool
    requires same { fields.now.files ≡ resolved.now.files }
    requires asked { AskedOf resolved.now.files fields.now.file pair }
    ensures { IsTrue result ↔ IsFree resolved.now.files pair }
{
    // no file of a set is refused, so that no section is longer than a file may be
    let _files = resolved.set().file_count();
    let _file = fields.file();
    let (_, section) = resolved.text_of(pair.section);
    !fields.has_any(
        section,
        pair.head + 8,
        (pair.tail + 4 - (pair.head + 8)) as u32,
    )
}

/// Whether a pair that a record asks for is a load from a slot, and free.
fn is_taken(resolved: &Resolved, fields: &FileFields, loads: &[CodePlace], pair: TextPair) -> bool
    requires same { fields.now.files ≡ resolved.now.files }
    requires asked { AskedOf resolved.now.files fields.now.file pair }
    requires sorted { IsNonDecreasingBy rank loads.now }
    ensures { IsTrue result ↔ IsTaken resolved.now.files loads.now pair }
{
    contains(loads, pair.head_place()) && is_free(resolved, fields, pair)
}

/// Whether a pair isn't the one before it.
fn is_new(pairs: &[TextPair], i: usize) -> bool
    requires { i < length pairs.now }
    ensures { result ≡ false → Repeats pairs.now i }
{
    i == 0 || pairs[i - 1] != pairs[i]
}

/// Puts one of pairs behind others, where it is taken. Records may ask for one pair many times; it is looked at once.
fn push_if_taken(
    found: &mut Vec<TextPair>,
    resolved: &Resolved,
    fields: &FileFields,
    loads: &[CodePlace],
    asked: &[TextPair],
    i: usize,
) -> Result<(), AllocError>
    requires same { fields.now.files ≡ resolved.now.files }
    requires asked { (pair : TextPair) → Contains asked.now pair →
        AskedOf resolved.now.files fields.now.file pair }
    requires sorted { IsNonDecreasingBy rank loads.now }
    requires within { i < length asked.now }
    ensures { let taken = TakenAt resolved.now.files asked.now loads.now i in
        OnOk result (TakesIn taken (Repeats asked.now i) found.old.items found.new.items) }
{
    let pair = asked[i];
    if !is_new(asked, i) {
        return Ok(());
    }
    if !is_taken(resolved, fields, loads, pair) {
        return Ok(());
    }
    found.push(pair)?;
    Ok(())
}

/// Puts those of pairs that are taken behind others.
fn push_taken(
    found: &mut Vec<TextPair>,
    resolved: &Resolved,
    fields: &FileFields,
    loads: &[CodePlace],
    asked: &[TextPair],
) -> Result<(), AllocError>
    requires same { fields.now.files ≡ resolved.now.files }
    requires asked { (pair : TextPair) → Contains asked.now pair →
        AskedOf resolved.now.files fields.now.file pair }
    requires sorted { IsNonDecreasingBy rank loads.now }
    ensures { let taken = TakenAt resolved.now.files asked.now loads.now in
        OnOk result (Joins (Before taken (length asked.now)) found.old.items found.new.items) }
{
    for i in 0..asked.len() {
        push_if_taken(found, resolved, fields, loads, asked, i)?;
    }
    Ok(())
}

/// Puts the recognised pairs of a file behind others.
fn push_file(
    alloc: Global,
    found: &mut Vec<TextPair>,
    resolved: &Resolved,
    file: u32,
) -> Result<(), AllocError>
    requires { file < length resolved.now.files }
    ensures { OnOk result (
        Joins (IsRecognisedIn resolved.now.files file) found.old.items found.new.items) }
{
    let set = resolved.set();
    // no file of a set is refused, so that what records are about is a section of their file
    let _files = set.file_count();
    let mut gathered = Gathered::of_file(alloc, resolved, file)?;
    if gathered.asked.is_empty() {
        return Ok(());
    }
    sort_heads(&mut gathered.asked);
    sort_places(&mut gathered.loads);
    let fields = FileFields::of_file(alloc, set, file)?;
    push_taken(found, resolved, &fields, &gathered.loads, &gathered.asked)?;
    Ok(())
}

/// The recognised pairs of a link: loads of addresses from slots, each with an access through the address, of which one instruction can be
/// made (ELFv2 ABI, "Relocation Descriptions": R_PPC64_PCREL_OPT).
pub fn pairs(alloc: Global, resolved: &Resolved) -> Result<Pairs, Memory>
    ensures { IfOk result (ArePairs resolved.now.files) }
{
    let mut found = Vec::new(alloc);
    for file in 0..resolved.set().file_count() {
        push_file(alloc, &mut found, resolved, file)?;
    }
    Ok(Pairs::of_list(alloc, found)?)
}
