// What a verdict says, and what it does not go by: request 7 of document 02, "Transport buffer verdict".
ghost use Rattle.ground.specs.Outcome.{Stated};
ghost use Rattle.buffer.specs.Laws.{BufferLaws};

// True, and with it: a verdict is that of the buffer tick by tick, it names the first record that breaks a rule, and records of other PIDs don't matter to it.
pub fn buffer_laws() -> bool
    ensures { Stated BufferLaws result }
{
    true
}
