// What is outside the machine: the input, and how calls are answered.
ghost use Rattle.std.specs.Prelude.{◌≡◌, ◌≤◌, ◌+◌, ◌-◌, [], ℕ, List, take, drop, length, min};
ghost use Rattle.power_machine.specs.Calls.{AreAnswers, first_answer, granted as granted_of, error_of, is_error, result_of};

use ppc_bytes::Bytes;

/// How a read or a write is answered.
#[derive(Clone, Copy, Debug, PartialEq, Eq)]
pub enum Answer {
    /// With all bytes that there are.
    Whole,

    /// With at most so many bytes.
    Short(u64),

    /// With an error, 1 to 4095, and no bytes.
    Error(u32),
}

impl Answer {
    /// At most so many of a number of bytes.
    pub fn granted(self, length: u64) -> u64
        ensures { result ≡ granted_of self length }
    {
        match self {
            Answer::Whole => length,
            Answer::Short(k) => k.min(length),
            Answer::Error(_) => 0,
        }
    }

    /// The error's number, or 0.
    pub fn error(self) -> u32
        ensures { result ≡ error_of self }
    {
        match self {
            Answer::Error(e) => e,
            _ => 0,
        }
    }

    /// Whether it is an error.
    pub fn is_error(self) -> bool
        ensures { result ≡ is_error self }
    {
        match self {
            Answer::Error(_) => true,
            _ => false,
        }
    }

    /// What the call gives as its result, where so many bytes came or went.
    pub fn result(self, count: u64) -> u64
        ensures { result ≡ result_of self count }
    {
        match self {
            Answer::Error(e) => u64::from(e),
            _ => count,
        }
    }
}

/// The input and the answers to come. When the answers have run out, each further one is Whole.
#[derive(Drop)]
pub struct World {
    pub(crate) input: Vec<u8>,
    pub(crate) taken: usize,
    pub(crate) answers: Vec<Answer>,
    pub(crate) used: usize,
}

impl World {
    /// A world with this input and these answers.
    pub fn new(input: Vec<u8>, answers: Vec<Answer>) -> World
        requires { AreAnswers answers.items }
        ensures input { drop result.taken result.input.items ≡ input.items }
        ensures answers { drop result.used result.answers.items ≡ answers.items }
    {
        World {
            input,
            taken: 0,
            answers,
            used: 0,
        }
    }

    /// The next answer.
    pub fn next(&self) -> Answer
        ensures { result ≡ first_answer (drop self.now.used self.now.answers.items) }
    {
        if self.used < self.answers.len() {
            self.answers[self.used]
        } else {
            Answer::Whole
        }
    }

    /// The next bytes of the input, at most so many.
    pub fn next_bytes(&self, most: u64) -> &[u8]
        ensures { result.now ≡ take most (drop self.now.taken self.now.input.items) }
    {
        if self.taken >= self.input.len() {
            return &self.input[..0];
        }
        let rest = &self.input[self.taken..];
        if most < rest.len() as u64 {
            &rest[..most as usize]
        } else {
            rest
        }
    }

    /// Takes the next answer, and so many bytes of the input.
    pub fn take(&mut self, most: u64)
        ensures answers { drop self.new.used self.new.answers.items ≡ drop 1
            (drop self.old.used self.old.answers.items) }
        ensures input { drop self.new.taken self.new.input.items ≡ drop most
            (drop self.old.taken self.old.input.items) }
    {
        self.used = end_of(self.used, 1, self.answers.len());
        self.taken = end_of(self.taken, most, self.input.len());
    }
}

// The end of at most so many from a place on, of a number of them.
fn end_of(at: usize, most: u64, count: usize) -> usize
    ensures bytes { (items : List ℕ) → length items ≡ count →
        drop result items ≡ drop most (drop at items) }
    ensures answers { (items : List Answer) → length items ≡ count →
        drop result items ≡ drop most (drop at items) }
{
    if at < count && most < (count - at) as u64 {
        at + most as usize
    } else {
        count
    }
}

/// A read or a write that the machine made.
#[derive(Drop)]
pub struct Event {
    /// 3 for a read, 4 for a write.
    pub number: u64,

    /// The descriptor.
    pub fd: u64,

    /// The address of the call's range.
    pub address: u64,

    /// The length of the range in bytes.
    pub length: u64,

    /// The bytes that were read or written.
    pub bytes: Bytes,

    /// The error's number, or 0.
    pub error: u32,
}
