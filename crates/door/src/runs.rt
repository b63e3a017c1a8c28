// Runs to hold a board against.
ghost use Rattle.door.specs.Runs.{RunsHold};

// There is nothing to do here: the contract states, of the definitions that every call is proved to follow, what
// is seen of the runs in `specs/Runs.antt`.
pub fn runs_hold()
    ensures { RunsHold }
{}
