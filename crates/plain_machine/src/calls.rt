// System calls.
ghost use Rattle.std.specs.Prelude.{◌≡◌, ◌<◌, ◌≤◌, ◌+◌, ◌%◌, ◌||◌, ◌==◌, ℕ, List, Option, Some, None, true, length, IfOk};
ghost use Rattle.power_machine.specs.Calls.{Asked, calls, reads, read_by, writes, write_by, exits, after_call, event_of, first_answer, numbers_in};
ghost use Rattle.power_machine.specs.Memory.{allows_range, bytes_from};
ghost use Rattle.power_machine.specs.declared.memory.Purpose.TheVariants.{Loading, Storing};
ghost use Rattle.plain_machine.specs.Plain.{number_of};
ghost use Rattle.plain_machine.specs.inside.Core.{domain_of, plain_state, core_may};
ghost use Rattle.plain_machine.specs.inside.Machine.{run_of, machine_may, Performs, Stays, asked_with};

use crate::machine::{Performed, PlainMachine};
use crate::state::PlainCore;
use crate::value::PlainValue;
use power_machine::{Answer, Event, Purpose, Reason, World};
use ppc_bytes::Bytes;
use std::alloc::{AllocError, Global};

/// What a read or a write asks for.
#[derive(Clone, Copy)]
struct Request {
    descriptor: u64,
    address: u64,
    length: u64,
}

impl Request {
    // What is recorded of the call with this number, where these bytes came or went.
    fn event(&self, number: u64, answer: Answer, bytes: Bytes) -> Event
        ensures { result ≡ event_of (asked_with number self.now) answer bytes }
    {
        Event {
            number,
            fd: self.descriptor,
            address: self.address,
            length: self.length,
            bytes,
            error: answer.error(),
        }
    }
}

impl PlainCore {
    // The first bytes of a call's range that may be loaded from, where all are numbers.
    fn numbers_at(
        &self,
        alloc: Global,
        at: u64,
        room: u64,
        count: u64,
    ) -> Result<Option<Bytes>, AllocError>
        requires fits { count ≤ room }
        requires allowed { allows_range (core_may self.now) Loading at room ≡ true }
        ensures { let cells = bytes_from (plain_state self.now).byte at count in
            IfOk result (λ bytes. bytes ≡ numbers_in (domain_of self.now) cells) }
    {
        self.memory.numbers_at(alloc, at, room, count)
    }

    // After a call that was answered, where so many bytes came or went.
    fn called(&mut self, answer: Answer, count: u64)
        ensures state { plain_state self.new ≡ after_call (domain_of self.old)
            (plain_state self.old) answer count (plain_state self.old).byte }
        ensures memory { self.new.memory ≡ self.old.memory }
        ensures sizes { self.new.sizes ≡ self.old.sizes }
    {
        self.registers[3] = PlainValue::Number(answer.result(count));
        self.condition[3] = Some(answer.is_error());
        self.at = self.at.ahead(4);
    }
}

impl PlainMachine {
    fn exit(&mut self, world: &mut World) -> Performed
        requires { self.old.ended ≡ None }
        ensures performs { let r = run_of self.old world.old in
            Performs (exits (domain_of self.old.core) r) r (run_of self.new world.new) result }
        ensures stays { Stays self.old self.new }
    {
        match self.core.registers[3].number() {
            Some(n) => {
                let status = (n % 256) as u8;
                self.ended = Some(status);
                Performed::Ended(status)
            }
            None => Performed::Left(Reason::Value),
        }
    }

    fn read(&mut self, world: &mut World) -> Performed
        requires { self.old.ended ≡ None }
        ensures performs { let r = run_of self.old world.old in
            Performs (reads (domain_of self.old.core) (machine_may self.old) r) r
            (run_of self.new world.new) result }
        ensures stays { Stays self.old self.new }
    {
        let (Some(address), Some(length)) = (
            self.core.registers[4].number(),
            self.core.registers[5].number(),
        ) else {
            return Performed::Left(Reason::Value);
        };
        if !self.core.memory.allows(Purpose::Storing, address, length) {
            return Performed::Left(Reason::Store);
        }
        let Some(descriptor) = self.core.registers[3].number() else {
            return Performed::Left(Reason::Value);
        };
        let asked = Request {
            descriptor,
            address,
            length,
        };
        self.take_in(asked, world)
    }

    // Gives a read the next bytes of the input.
    fn take_in(&mut self, asked: Request, world: &mut World) -> Performed
        requires going { self.old.ended ≡ None }
        requires allowed { allows_range (machine_may self.old) Storing asked.address asked.length
            ≡ true }
        ensures performs { let r = run_of self.old world.old in
            Performs (read_by (domain_of self.old.core) r (first_answer r.answers)
            (asked_with 3 asked)) r (run_of self.new world.new) result }
        ensures stays { Stays self.old self.new }
    {
        let answer = world.next();
        let most = answer.granted(asked.length);
        let bytes = world.next_bytes(most);
        let count = bytes.len() as u64;
        let Ok(copy) = Vec::from_slice(self.alloc, bytes) else {
            return Performed::Memory;
        };
        let event = asked.event(3, answer, Bytes::of(copy));
        if self.events.reserve(1).is_err() {
            return Performed::Memory;
        }
        if self
            .core
            .memory
            .fill(asked.address, asked.length, bytes)
            .is_err()
        {
            return Performed::Memory;
        }
        if self.events.push(event).is_err() {
            return Performed::Memory;
        }
        self.core.called(answer, count);
        world.take(most);
        Performed::Went
    }

    fn write(&mut self, world: &mut World) -> Performed
        requires { self.old.ended ≡ None }
        ensures performs { let r = run_of self.old world.old in
            Performs (writes (domain_of self.old.core) (machine_may self.old) r) r
            (run_of self.new world.new) result }
        ensures stays { Stays self.old self.new }
    {
        let (Some(address), Some(length)) = (
            self.core.registers[4].number(),
            self.core.registers[5].number(),
        ) else {
            return Performed::Left(Reason::Value);
        };
        if !self.core.memory.allows(Purpose::Loading, address, length) {
            return Performed::Left(Reason::Load);
        }
        let Some(descriptor) = self.core.registers[3].number() else {
            return Performed::Left(Reason::Value);
        };
        let asked = Request {
            descriptor,
            address,
            length,
        };
        self.give_out(asked, world)
    }

    // Takes the bytes of a write.
    fn give_out(&mut self, asked: Request, world: &mut World) -> Performed
        requires going { self.old.ended ≡ None }
        requires allowed { allows_range (machine_may self.old) Loading asked.address asked.length
            ≡ true }
        ensures performs { let r = run_of self.old world.old in
            Performs (write_by (domain_of self.old.core) r (first_answer r.answers)
            (asked_with 4 asked)) r (run_of self.new world.new) result }
        ensures stays { Stays self.old self.new }
    {
        let answer = world.next();
        let count = answer.granted(asked.length);
        let bytes = match self
            .core
            .numbers_at(self.alloc, asked.address, asked.length, count)
        {
            Ok(Some(bytes)) => bytes,
            Ok(None) => return Performed::Left(Reason::Value),
            Err(_) => return Performed::Memory,
        };
        let event = asked.event(4, answer, bytes);
        if self.events.push(event).is_err() {
            return Performed::Memory;
        }
        self.core.called(answer, count);
        world.take(0);
        Performed::Went
    }

    // A call of the system, by its number in r0.
    pub(crate) fn call(&mut self, world: &mut World) -> Performed
        requires { self.old.ended ≡ None }
        ensures performs { let r = run_of self.old world.old in
            Performs (calls (domain_of self.old.core) (machine_may self.old) r) r
            (run_of self.new world.new) result }
        ensures stays { Stays self.old self.new }
    {
        match self.core.registers[0].number() {
            Some(1 | 234) => self.exit(world),
            Some(3) => self.read(world),
            Some(4) => self.write(world),
            Some(_) => Performed::Left(Reason::Call),
            None => Performed::Left(Reason::Value),
        }
    }
}
