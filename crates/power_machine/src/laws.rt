// What holds of steps.
ghost use Rattle.std.specs.Prelude.{◌≡◌, ◌≢◌, ℕ, false, List, Some, slice_index_or};
ghost use Rattle.power_insns.specs.declared.meaning.Operation.{Operation};
ghost use Rattle.power_insns.specs.declared.uses.Access.TheVariants as access;
ghost use Rattle.power_insns.specs.Uses.{Writes, access_of};
ghost use Rattle.power_machine.specs.declared.reason.Reason.{Reason};
ghost use Rattle.power_machine.specs.declared.world.Answer.{Answer};
ghost use Rattle.power_machine.specs.declared.machine.StepOutcome.TheVariants as outcome;
ghost use Rattle.power_machine.specs.Memory.{Permission, Range};
ghost use Rattle.power_machine.specs.Machines.{Next, Went, exec, state_after, sum_address};
ghost use Rattle.power_machine.specs.Numbers.{NumberState, numbers};
ghost use Rattle.power_machine.specs.Runs.{Steps, Continues, Reaches, Grows, begun};
ghost use Rattle.power_machine.specs.Start.{RunsTo};
ghost use Rattle.power_machine.specs.Steps.{NumberRun, NumberProgress, IsStep, Made, ReachesIn};
ghost use Rattle.power_machine.specs.laws.Induction.{Steps as ManySteps};
ghost use Rattle.power_machine.specs.laws.Kept.{is_branch};
ghost use Rattle.power_machine.specs.laws.Window.{LoadMovesBefore, StoreMovesBefore};

/// A run in its world has one step: what it does is a function of its state and the world.
pub fn steps_are_one()
    ensures { (ranges : List Range) (r : NumberRun) (s t : Next NumberRun) →
        Steps (IsStep ranges) r s → Steps (IsStep ranges) r t → s ≡ t }
{}

/// A run comes to one thing in at most so many steps, and so does an executable in a world.
pub fn runs_are_one()
    ensures runs { (ranges : List Range) (n : ℕ) (r : NumberRun) (p q : NumberProgress) →
        ReachesIn ranges n r p → ReachesIn ranges n r q → p ≡ q }
    ensures files { (file input : List ℕ) (answers : List Answer) (n : ℕ) (p q : NumberProgress) →
        RunsTo file input answers n p → RunsTo file input answers n q → p ≡ q }
{}

/// A step of a run that has ended changes nothing.
pub fn ended_stays_ended()
    ensures { (ranges : List Range) (r : NumberRun) (s : Next NumberRun) (status : ℕ) →
        r.ended ≡ Some status → Steps (IsStep ranges) r s → s ≡ Went r }
{}

/// A step that leaves changes nothing, and neither does one that lacks memory.
pub fn leaves_change_nothing()
    ensures left { (ranges : List Range) (old new : NumberRun) (reason : Reason) (at : ℕ) →
        Made ranges old new (outcome.Left reason at) → new ≡ old }
    ensures memory { (ranges : List Range) (old new : NumberRun) →
        Made ranges old new outcome.Memory → new ≡ old }
{}

/// Calls that were made stay made: a step adds events and takes none away.
pub fn events_only_grow()
    ensures { (ranges : List Range) (r : NumberRun) (s : Next NumberRun) →
        Steps (IsStep ranges) r s → Grows r.events (state_after s r).events }
{}

/// So many steps, of which none leaves, are a run of so many steps, and such a run is so many steps.
pub fn steps_are_runs()
    ensures steps { (ranges : List Range) (n : ℕ) (r u : NumberRun) →
        Reaches (IsStep ranges) n r (begun u u.ended) →
        ManySteps (Continues (IsStep ranges)) n r u }
    ensures runs { (ranges : List Range) (n : ℕ) (r u : NumberRun) →
        ManySteps (Continues (IsStep ranges)) n r u →
        Reaches (IsStep ranges) n r (begun u u.ended) }
{}

/// A register that an operation doesn't write keeps its value, an operation that is no branch goes on at the next instruction, and memory
/// stays as it is where the operation isn't a store.
pub fn operations_keep_the_rest()
    ensures registers { (size : ℕ) (may : Permission) (op : Operation) (s t : NumberState)
        (r : ℕ) → ¬ Writes op r → exec numbers size may op s ≡ Went t → (z : ℕ) →
        slice_index_or t.registers r z ≡ slice_index_or s.registers r z }
    ensures place { (size : ℕ) (may : Permission) (op : Operation) (s t : NumberState) →
        is_branch op ≡ false → exec numbers size may op s ≡ Went t → t.at ≡ sum_address s.at size }
    ensures memory { (size : ℕ) (may : Permission) (op : Operation) (s t : NumberState) →
        access_of op ≢ access.Store → exec numbers size may op s ≡ Went t → t.byte ≡ s.byte }
{}

/// A load may be made before operations that spare its registers and store nothing.
pub fn loads_move_before()
    ensures { LoadMovesBefore }
{}

/// A store may be made before operations that spare its registers and neither load nor store.
pub fn stores_move_before()
    ensures { StoreMovesBefore }
{}
