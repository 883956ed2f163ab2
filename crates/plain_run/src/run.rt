// Steps and runs of a job.
ghost use Rattle.std.specs.Prelude.{◌≡◌};
ghost use Rattle.plain_run.specs.Running.{job_of, run_of, may_of};
ghost use Rattle.plain_run.specs.Runs.{Made, RunAnswers};
ghost use Rattle.plain_run.specs.inside.Starts.{outcome_by};

use crate::plain::{Plain, PlainOutcome, PlainStep};
use plain_machine::{Performed, TextPlace};
use power_machine::World;

/// What a step at a place came to.
fn outcome_by(performed: Performed, place: TextPlace) -> PlainStep
    ensures { result ≡ outcome_by performed place }
{
    match performed {
        Performed::Went => PlainStep::Went,
        Performed::Ended(status) => PlainStep::Ended(status),
        Performed::Left(reason) => PlainStep::Left(reason, place.section, place.offset),
        Performed::Memory => PlainStep::Memory,
    }
}

impl<'p, 'a, 'b> Plain<'p, 'a, 'b> {
    /// One step. After the end it answers Ended again, and nothing changes.
    pub fn step(&mut self, world: &mut World) -> PlainStep
        ensures made { Made (job_of self.old) (may_of self.old) (run_of self.old world.old)
            (run_of self.new world.new) result }
        ensures job { job_of self.new ≡ job_of self.old }
        ensures may { may_of self.new ≡ may_of self.old }
    {
        if let Some(status) = self.machine.ended() {
            return PlainStep::Ended(status);
        }
        let place = self.machine.place();
        let action = self.text.action_at(place);
        outcome_by(self.machine.perform(&action, world), place)
    }

    /// At most so many steps. After the end it answers Exited again, and nothing changes.
    pub fn run(&mut self, budget: u64, world: &mut World) -> PlainOutcome
        ensures answers { RunAnswers (job_of self.old) (may_of self.old) budget
            (run_of self.old world.old) (run_of self.new world.new) result }
        ensures job { job_of self.new ≡ job_of self.old }
        ensures may { may_of self.new ≡ may_of self.old }
    {
        if let Some(status) = self.machine.ended() {
            return PlainOutcome::Exited(status);
        }
        for _ in 0..budget {
            match self.step(world) {
                PlainStep::Went => {}
                PlainStep::Ended(status) => return PlainOutcome::Exited(status),
                PlainStep::Left(reason, section, offset) => {
                    return PlainOutcome::Left(reason, section, offset);
                }
                PlainStep::Memory => return PlainOutcome::Memory,
            }
        }
        PlainOutcome::Budget
    }
}
