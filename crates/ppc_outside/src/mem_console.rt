// A console in memory, which fails at the calls that are marked.
ghost use Rattle.std.specs.Prelude.{◌≡◌, ◌≢◌, ◌++◌, ◌↔◌, [], ◌∷◌, Some, Err, OnOk, OnErr, Contains, IsTrue};
ghost use Rattle.ppc_outside.specs.Outside.{Prints};
ghost use Rattle.ppc_outside.specs.Memory.{text_of, text_state, put_marks, put_call, put_faults, IsMarkedPut, next_count};

use crate::outside::{Console, OutsideError};
use std::alloc::Global;

/// A console in memory: it tells its text, and fails exactly at the calls that were marked.
#[derive(Drop)]
pub struct MemConsole {
    text: Vec<u8>,
    marks: Vec<u64>,
    calls: u64,
    faults: u64,
}

impl MemConsole {
    /// No text, no marks and no faults.
    pub fn new(alloc: Global) -> MemConsole
        ensures text { text_of result ≡ [] }
        ensures marks { put_marks result ≡ [] }
        ensures calls { put_call result ≡ 0 }
        ensures faults { put_faults result ≡ 0 }
    {
        MemConsole {
            text: Vec::new(alloc),
            marks: Vec::new(alloc),
            calls: 0,
            faults: 0,
        }
    }

    /// Marks a call of `put`, by its number from 0, to fail. The only error is want of memory.
    pub fn fail_call(&mut self, call: u64) -> Result<(), OutsideError>
        ensures ok { OnOk result (put_marks self.new ≡ put_marks self.old ++ call ∷ []) }
        ensures err { OnErr result (put_marks self.new ≡ put_marks self.old) }
        ensures memory { result ≢ Err OutsideError.Failed }
        ensures text { text_of self.new ≡ text_of self.old }
        ensures calls { put_call self.new ≡ put_call self.old }
        ensures faults { put_faults self.new ≡ put_faults self.old }
    {
        match self.marks.push(call) {
            Ok(()) => Ok(()),
            Err(_) => Err(OutsideError::Memory),
        }
    }

    /// What was printed.
    pub fn text(&self) -> &[u8]
        ensures { result.now ≡ text_of self.now }
    {
        self.text.as_slice()
    }

    // Whether this call is to fail; the next call has the next number.
    fn is_marked(&mut self) -> bool
        ensures marked { IsTrue result ↔ IsMarkedPut self.old }
        ensures counted { self.new ≡ record self.old { calls = next_count self.old.calls } }
    {
        let marked = self.marks.contains(&self.calls);
        self.calls = self.calls.saturating_add(1);
        marked
    }
}

impl Console for MemConsole {
    ghost state = { λ c. text_state c };

    fn put(&mut self, bytes: &[u8]) -> Result<(), OutsideError>
        ensures printed { Prints (text_state self.old) (text_state self.new) bytes.now result }
        ensures fails { (result ≡ Err OutsideError.Failed) ↔ IsMarkedPut self.old }
        ensures raised { IsMarkedPut self.old →
            put_faults self.new ≡ next_count (put_faults self.old) }
        ensures failed_text { IsMarkedPut self.old → text_of self.new ≡ text_of self.old }
        ensures marks { put_marks self.new ≡ put_marks self.old }
        ensures calls { put_call self.new ≡ next_count (put_call self.old) }
    {
        if self.is_marked() {
            self.faults = self.faults.saturating_add(1);
            return Err(OutsideError::Failed);
        }
        match self.text.extend_from_slice(bytes) {
            Ok(()) => Ok(()),
            Err(_) => Err(OutsideError::Memory),
        }
    }
}
