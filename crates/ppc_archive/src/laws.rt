// What the choice of a link's files keeps to.
ghost use Rattle.ppc_archive.specs.Expand.{ChoosesOnce};

/// Files that are fetched come to one thing: the files of the link, or one refusal.
pub fn files_are_chosen_once()
    ensures { ChoosesOnce }
{}
