// System calls.
ghost use Rattle.std.specs.Prelude.{◌≡◌, ◌<◌, ◌≤◌, ◌+◌, ◌%◌, ◌||◌, ◌==◌, ℕ, List, Some, None, length};
ghost use Rattle.power_machine.specs.Memory.{byte_at};
ghost use Rattle.power_machine.specs.Calls.{calls, reads, writes, exits, after_call, event_of};
ghost use Rattle.power_machine.specs.Numbers.{numbers, state_of};
ghost use Rattle.power_machine.specs.inside.Core.{asked_in};
ghost use Rattle.power_machine.specs.Pages.{PagesAfter, kept_pages, stored_by_call, stored_by_read};
ghost use Rattle.power_machine.specs.Steps.{run_of, machine_may, machine_ranges, Performs};

use crate::machine::{Machine, StepOutcome};
use crate::memory::Purpose;
use crate::reason::Reason;
use crate::state::Core;
use crate::world::{Answer, Event, World};
use ppc_bytes::Bytes;

impl Core {
    // What is recorded of a call with this number, where these bytes came or went.
    fn event(&self, number: u64, answer: Answer, bytes: Bytes) -> Event
        ensures { result ≡ event_of (asked_in number (state_of self.now)) answer bytes }
    {
        Event {
            number,
            fd: self.registers[3],
            address: self.registers[4],
            length: self.registers[5],
            bytes,
            error: answer.error(),
        }
    }

    // After a call that was answered, where so many bytes came or went.
    fn called(&mut self, answer: Answer, count: u64)
        ensures state { state_of self.new ≡ after_call numbers (state_of self.old) answer count
            (byte_at self.old.memory.regions.items) }
        ensures memory { self.new.memory ≡ self.old.memory }
    {
        self.registers[3] = answer.result(count);
        self.condition[3] = answer.is_error();
        self.at = self.at.wrapping_add(4);
    }
}

impl Machine {
    fn exit(&mut self, world: &mut World) -> StepOutcome
        requires { self.old.ended ≡ None }
        ensures performs { let r = run_of self.old world.old in
            Performs (exits numbers r) r (run_of self.new world.new) result }
        ensures ranges { machine_ranges self.new ≡ machine_ranges self.old }
        ensures pages { PagesAfter None (kept_pages self.old)
            (kept_pages self.new) result }
    {
        let status = (self.core.registers[3] % 256) as u8;
        self.ended = Some(status);
        StepOutcome::Ended(status)
    }

    fn read(&mut self, world: &mut World) -> StepOutcome
        requires { self.old.ended ≡ None }
        ensures performs { let r = run_of self.old world.old in
            Performs (reads numbers (machine_may self.old) r) r (run_of self.new world.new) result }
        ensures ranges { machine_ranges self.new ≡ machine_ranges self.old }
        ensures pages { PagesAfter (Some (stored_by_read (run_of self.old world.old)))
            (kept_pages self.old) (kept_pages self.new) result }
    {
        let address = self.core.registers[4];
        let length = self.core.registers[5];
        if !self.core.memory.allows(Purpose::Storing, address, length) {
            return StepOutcome::Left(Reason::Store, self.core.at);
        }
        let answer = world.next();
        let most = answer.granted(length);
        let bytes = world.next_bytes(most);
        let count = bytes.len() as u64;
        let Ok(copy) = Vec::from_slice(self.alloc, bytes) else {
            return StepOutcome::Memory;
        };
        let event = self.core.event(3, answer, Bytes::of(copy));
        if self.events.reserve(1).is_err() {
            return StepOutcome::Memory;
        }
        let Ok(()) = self.core.memory.fill(address, length, bytes) else {
            return StepOutcome::Memory;
        };
        if self.events.push(event).is_err() {
            return StepOutcome::Memory;
        }
        self.core.called(answer, count);
        world.take(most);
        StepOutcome::Went
    }

    fn write(&mut self, world: &mut World) -> StepOutcome
        requires { self.old.ended ≡ None }
        ensures performs { let r = run_of self.old world.old in
            Performs (writes numbers (machine_may self.old) r) r (run_of self.new world.new)
            result }
        ensures ranges { machine_ranges self.new ≡ machine_ranges self.old }
        ensures pages { PagesAfter None (kept_pages self.old)
            (kept_pages self.new) result }
    {
        let address = self.core.registers[4];
        let length = self.core.registers[5];
        let answer = world.next();
        let count = answer.granted(length);
        let bytes = match self.core.memory.copy_at(address, length, count) {
            Ok(Some(bytes)) => bytes,
            Ok(None) => return StepOutcome::Left(Reason::Load, self.core.at),
            Err(_) => return StepOutcome::Memory,
        };
        let event = self.core.event(4, answer, bytes);
        if self.events.push(event).is_err() {
            return StepOutcome::Memory;
        }
        self.core.called(answer, count);
        world.take(0);
        StepOutcome::Went
    }

    // A call of the system, by its number in r0.
    pub(crate) fn call(&mut self, world: &mut World) -> StepOutcome
        requires { self.old.ended ≡ None }
        ensures performs { let r = run_of self.old world.old in
            Performs (calls numbers (machine_may self.old) r) r (run_of self.new world.new) result }
        ensures ranges { machine_ranges self.new ≡ machine_ranges self.old }
        ensures pages { PagesAfter (stored_by_call (run_of self.old world.old))
            (kept_pages self.old) (kept_pages self.new) result }
    {
        match self.core.registers[0] {
            1 | 234 => self.exit(world),
            3 => self.read(world),
            4 => self.write(world),
            _ => StepOutcome::Left(Reason::Call, self.core.at),
        }
    }
}
