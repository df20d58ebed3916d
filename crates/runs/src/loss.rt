// How long a loss can be felt: request 14 of document 02, "After a jump, as good as new".
ghost use Rattle.ground.specs.Outcome.{Stated};
ghost use Rattle.runs.specs.Promises.{AsNewHolds};

// True, and with it: from a packet call that reports a jump, and from one that starts a section, on, all is as on an area that had seen nothing.
pub fn as_new() -> bool
    ensures { Stated AsNewHolds result }
{
    true
}
