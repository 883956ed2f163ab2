// Programs and worlds for tests, written as text.
ghost use Rattle.std.specs.Prelude.{◌≡◌, ◌+◌, ◌*◌, ◌<◌, ◌≤◌, length, IfOk, IfSome};
ghost use Rattle.elf64_exec.specs.Executable.{ArePlaced};
ghost use Rattle.power_machine.specs.Calls.{IsAnswer, AreAnswers};

use crate::{Answer, Machine, Outcome, World};
use elf64_exec::{Segment, Segments};
use ppc_bytes::{Bytes, Memory, long_at};
use std::alloc::Global;
use std::test::Fail;

// Where a program's 64 bytes of data begin. Its text is right behind them.
const DATA: u64 = 0x1000;

const TEXT: u64 = 0x1040;

// ld r4,0x1000(0); ld r5,0x1008(0); li r9,0x1000; li r0,-1
const START: &str = "E8801000 E8A01008 39201000 3800FFFF";

// std r3,-8(r1); li r0,4; li r3,1; addi r4,r1,-8; li r5,8; sc; li r0,1; li r3,0; sc
const END: &str =
    "F861FFF8 38000004 38600001 3881FFF8 38A00008 44000002 38000001 38600000 44000002";

/// Words that put the bits of CR into r3, the first of them highest: li r3,0 and, for each bit, a bc over an oris or an ori of r3.
pub const CONDITION: &str = "38600000
40800008 64638000 40810008 64634000 40820008 64632000 40830008 64631000
40840008 64630800 40850008 64630400 40860008 64630200 40870008 64630100
40880008 64630080 40890008 64630040 408A0008 64630020 408B0008 64630010
408C0008 64630008 408D0008 64630004 408E0008 64630002 408F0008 64630001
40900008 60638000 40910008 60634000 40920008 60632000 40930008 60631000
40940008 60630800 40950008 60630400 40960008 60630200 40970008 60630100
40980008 60630080 40990008 60630040 409A0008 60630020 409B0008 60630010
409C0008 60630008 409D0008 60630004 409E0008 60630002 409F0008 60630001";

/// The bytes of words in hex.
pub fn bytes_of(alloc: Global, parts: &[&str]) -> Result<Vec<u8>, Fail> {
    let mut bytes = Vec::new(alloc);
    for part in parts {
        for word in part.split_whitespace() {
            bytes.extend_from_slice(&u32::from_str_radix(word, 16)?.to_le_bytes())?;
        }
    }
    Ok(bytes)
}

// The segments of data and of text.
fn segments_of(alloc: Global, numbers: Vec<u8>, text: Vec<u8>) -> Result<Vec<Segment>, Memory>
    requires numbers { length numbers.items ≤ 64 }
    requires some { 0 < length text.items }
    requires few { length text.items ≤ 0x1000 }
    ensures { IfOk result (λ list. ArePlaced list.items) }
{
    let mut list = Vec::new(alloc);
    list.push(Segment {
        flags: 6,
        address: DATA,
        bytes: Bytes::of(numbers),
        size: 64,
    })?;
    let size = text.len() as u64;
    list.push(Segment {
        flags: 5,
        address: TEXT,
        bytes: Bytes::of(text),
        size,
    })?;
    Ok(list)
}

/// A program whose data begin with two numbers, and whose text is these words in hex.
pub fn program(alloc: Global, numbers: [u64; 2], parts: &[&str]) -> Result<Segments, Fail>
    ensures { IfOk result (λ s. ArePlaced s.list.items) }
{
    let text = bytes_of(alloc, parts)?;
    if text.is_empty() || text.len() > 0x1000 {
        return Err(Fail::new("a text of 1 to 1024 words is wanted"));
    }
    let mut data = Vec::new(alloc);
    for number in numbers {
        data.extend_from_slice(&number.to_le_bytes())?;
    }
    data.resize(64, 0)?;
    let list = segments_of(alloc, data, text)?;
    Ok(Segments { entry: TEXT, list })
}

// An answer by its name, as `whole`, `short 2` or `error 5`.
fn answer_of(text: &str) -> Option<Answer>
    ensures { IfSome result IsAnswer }
{
    let mut words = text.split_whitespace();
    let name = words.next()?;
    if name == "whole" {
        return Some(Answer::Whole);
    }
    let number: u32 = words.next()?.parse().ok()?;
    match name {
        "short" => Some(Answer::Short(u64::from(number))),
        "error" if 1 <= number && number <= 4095 => Some(Answer::Error(number)),
        _ => None,
    }
}

// Answers by their names, with commas between.
#[tactic(auto, using(crate::proofs::Answering::answers_pushed))]
fn answers_of(alloc: Global, text: &str) -> Result<Vec<Answer>, Fail>
    ensures { IfOk result (λ answers. AreAnswers answers.items) }
{
    let mut answers = Vec::new(alloc);
    for name in text.split(',') {
        answers.push(answer_of(name).ok_or("an answer is wanted")?)?;
    }
    Ok(answers)
}

/// A world with this input and these answers.
pub fn world(alloc: Global, input: &str, answers: &str) -> Result<World, Fail> {
    let input = Vec::from_slice(alloc, input.as_bytes())?;
    Ok(World::new(input, answers_of(alloc, answers)?))
}

/// A row of a listing.
#[derive(Clone, Copy)]
pub struct Row<'a> {
    /// Words in hex.
    pub words: &'a str,

    /// What they are run on.
    pub given: &'a str,

    /// The number in hex that they leave in r3.
    pub wanted: &'a str,
}

/// The row of a line, whose first column is the assembly.
pub fn row_of(line: &str) -> Result<Row<'_>, Fail> {
    let mut columns = line.split('|').skip(1);
    Ok(Row {
        words: columns.next().ok_or("words are wanted")?,
        given: columns.next().ok_or("what they are run on is wanted")?,
        wanted: columns.next().ok_or("a number is wanted")?,
    })
}

/// A number in hex.
pub fn number_of(text: &str) -> Result<u64, Fail> {
    Ok(u64::from_str_radix(text.trim(), 16)?)
}

/// What a program leaves in r3, if it ends: its words run between a start that puts the numbers, which its data begin with, into r4 and r5, the data's
/// address into r9 and -1 into r0, and an end that writes r3 and exits.
pub fn left_in_r3(
    alloc: Global,
    numbers: [u64; 2],
    parts: &[&str; 3],
    world: &mut World,
) -> Result<Option<u64>, Fail> {
    let [before, words, after] = parts;
    let segments = program(alloc, numbers, &[START, before, words, after, END])?;
    let mut machine = Machine::load(alloc, segments)?;
    if machine.run(1000, world) != Outcome::Exited(0) {
        return Ok(None);
    }
    match machine.events().last() {
        Some(event) if event.bytes.as_slice().len() == 8 => {
            Ok(Some(long_at(event.bytes.as_slice(), 0)))
        }
        _ => Ok(None),
    }
}
