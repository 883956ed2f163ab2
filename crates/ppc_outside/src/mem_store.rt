// Files in memory, which fail at the calls that are marked.
ghost use Rattle.std.specs.Prelude.{ℕ, ◌≡◌, ◌≢◌, ◌⊎◌, ◌++◌, ◌↔◌, List, [], ◌∷◌, Some, None, Ok, Err, OnOk, OnErr, IfSome, IsTrue, take};
ghost use Rattle.std.specs.Option.{option_map};
ghost use Rattle.ppc_outside.specs.Outside.{AppendsFile, Fetches, Replaces, NowHolds, AllStay};
ghost use Rattle.ppc_outside.specs.Memory.{mem_state, files_in, KeepsCounts, marks_of, call_of, fetch_faults, replace_faults, IsMarked, next_count};

use crate::outside::{OutsideError, Store};
use std::alloc::Global;
use std::collections::HashMap;

/// Files in memory: the store tells them all, and a call fails exactly where it was marked or fetches a name that is absent.
#[derive(Drop)]
pub struct MemStore {
    alloc: Global,
    files: HashMap<String, Vec<u8>>,
    marks: Vec<u64>,
    calls: u64,
    faults: u64,
    write_faults: u64,
}

// Appends the first bytes.
fn append_front(into: &mut Vec<u8>, bytes: &[u8], limit: usize) -> Result<(), OutsideError>
    ensures ok { OnOk result (into.new.items ≡ into.old.items ++ take limit bytes.now) }
    ensures err { OnErr result (into.new.items ≡ into.old.items) }
    ensures memory { result ≢ Err OutsideError.Failed }
{
    let count = bytes.len().min(limit);
    match into.extend_from_slice(&bytes[..count]) {
        Ok(()) => Ok(()),
        Err(_) => Err(OutsideError::Memory),
    }
}

impl MemStore {
    /// No files, no marks and no faults.
    pub fn new(alloc: Global) -> MemStore
        ensures files { (name : List ℕ) → files_in result name ≡ None }
        ensures marks { marks_of result ≡ [] }
        ensures calls { call_of result ≡ 0 }
        ensures faults { fetch_faults result ≡ 0 }
        ensures write_faults { replace_faults result ≡ 0 }
    {
        MemStore {
            alloc,
            files: HashMap::new(alloc),
            marks: Vec::new(alloc),
            calls: 0,
            faults: 0,
            write_faults: 0,
        }
    }

    /// Makes a name hold these bytes, also where the name is there. The only error is want of memory.
    pub fn add(&mut self, name: &str, bytes: &[u8]) -> Result<(), OutsideError>
        ensures ok { OnOk result
            (NowHolds (files_in self.old) (files_in self.new) name.now bytes.now) }
        ensures err { OnErr result (AllStay (files_in self.old) (files_in self.new)) }
        ensures memory { result ≢ Err OutsideError.Failed }
        ensures counts { KeepsCounts self.old self.new }
    {
        let Ok(copy) = Vec::from_slice(self.alloc, bytes) else {
            return Err(OutsideError::Memory);
        };
        let Ok(key) = String::from_str(self.alloc, name) else {
            return Err(OutsideError::Memory);
        };
        match self.files.insert(key, copy) {
            Ok(_) => Ok(()),
            Err(_) => Err(OutsideError::Memory),
        }
    }

    /// Marks a call of `fetch` or `replace`, by its number from 0, to fail. The only error is want of memory.
    pub fn fail_call(&mut self, call: u64) -> Result<(), OutsideError>
        ensures ok { OnOk result (marks_of self.new ≡ marks_of self.old ++ call ∷ []) }
        ensures err { OnErr result (marks_of self.new ≡ marks_of self.old) }
        ensures memory { result ≢ Err OutsideError.Failed }
        ensures files { AllStay (files_in self.old) (files_in self.new) }
        ensures calls { call_of self.new ≡ call_of self.old }
        ensures faults { fetch_faults self.new ≡ fetch_faults self.old }
        ensures write_faults { replace_faults self.new ≡ replace_faults self.old }
    {
        match self.marks.push(call) {
            Ok(()) => Ok(()),
            Err(_) => Err(OutsideError::Memory),
        }
    }

    /// What a name holds; None exactly where the name is absent.
    pub fn get(&self, name: &str) -> Option<&[u8]>
        ensures { option_map (λ b. b.now) result ≡ files_in self.now name.now }
    {
        match self.files.get(name) {
            Some(bytes) => Some(bytes.as_slice()),
            None => None,
        }
    }

    // Whether this call is to fail; the next call has the next number.
    fn is_marked(&mut self) -> bool
        ensures marked { IsTrue result ↔ IsMarked self.old }
        ensures counted { self.new ≡ record self.old { calls = next_count self.old.calls } }
    {
        let marked = self.marks.contains(&self.calls);
        self.calls = self.calls.saturating_add(1);
        marked
    }
}

impl Store for MemStore {
    ghost state = { λ s. mem_state s };

    fn fetch(&mut self, name: &str, limit: usize, into: &mut Vec<u8>) -> Result<(), OutsideError>
        ensures ok { OnOk result (AppendsFile (Some (files_in self.old)) name.now limit
            into.old.items into.new.items) }
        ensures err { OnErr result (into.new.items ≡ into.old.items) }
        ensures store { Fetches (mem_state self.old) (mem_state self.new) name.now result }
        ensures fails { (result ≡ Err OutsideError.Failed)
            ↔ (IsMarked self.old ⊎ (files_in self.old name.now ≡ None)) }
        ensures raised { IsMarked self.old →
            fetch_faults self.new ≡ next_count (fetch_faults self.old) }
        ensures absent { ¬ IsMarked self.old → fetch_faults self.new ≡ fetch_faults self.old }
        ensures marks { marks_of self.new ≡ marks_of self.old }
        ensures calls { call_of self.new ≡ next_count (call_of self.old) }
    {
        if self.is_marked() {
            self.faults = self.faults.saturating_add(1);
            return Err(OutsideError::Failed);
        }
        match self.get(name) {
            Some(bytes) => append_front(into, bytes, limit),
            None => Err(OutsideError::Failed),
        }
    }

    fn replace(&mut self, name: &str, bytes: &[u8]) -> Result<(), OutsideError>
        ensures store { Replaces
            (mem_state self.old) (mem_state self.new) name.now bytes.now result }
        ensures fails { (result ≡ Err OutsideError.Failed) ↔ IsMarked self.old }
        ensures raised { IsMarked self.old →
            replace_faults self.new ≡ next_count (replace_faults self.old) }
        ensures failed { IsMarked self.old → AllStay (files_in self.old) (files_in self.new) }
        ensures marks { marks_of self.new ≡ marks_of self.old }
        ensures calls { call_of self.new ≡ next_count (call_of self.old) }
    {
        if self.is_marked() {
            self.write_faults = self.write_faults.saturating_add(1);
            return Err(OutsideError::Failed);
        }
        self.add(name, bytes)
    }
}
