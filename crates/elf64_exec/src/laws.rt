// What callers may rely on when they write and read executables.
ghost use Rattle.std.specs.Prelude.{◌≡◌, ◌≢◌, ◌<◌, ◌^◌, ℕ, List};
ghost use Rattle.std.specs.List.{All};
ghost use Rattle.elf64_exec.specs.Executable.{executable, IsImage};
ghost use Rattle.elf64_exec.specs.Loading.{HasFault, Loads};
ghost use Rattle.elf64_exec.specs.declared.layout.Segment.{Segment};
ghost use Rattle.elf64_exec.specs.declared.layout.ExecFault.{ExecFault};

/// What was written is read back: an executable loads as the entry and the segments of which it was made.
pub fn written_loads()
    ensures { (entry : ℕ) (segments : List Segment) →
        entry < 2 ^ 64 →
        All (λ (s : Segment). s.flags < 2 ^ 32) segments →
        IsImage segments →
        Loads (executable entry segments) entry segments }
{}

/// A file that loads has no fault, so only want of memory keeps it from being read.
pub fn loaded_has_no_fault()
    ensures { (file : List ℕ) (entry : ℕ) (segments : List Segment) (fault : ExecFault) →
        Loads file entry segments →
        HasFault file fault →
        fault ≡ ExecFault.Memory }
{}

/// A file has at most one fault beside want of memory.
pub fn faults_are_one()
    ensures { (file : List ℕ) (a b : ExecFault) →
        HasFault file a →
        HasFault file b →
        a ≢ ExecFault.Memory →
        b ≢ ExecFault.Memory →
        a ≡ b }
{}
