// How intervals add up around a turn: request 13 of document 02, "Clock sums".
ghost use Rattle.ground.specs.Outcome.{Stated};
ghost use Rattle.clock.specs.Sums.{ClockSums};

// True, and with it: ways forward add up modulo the turn, and a signed difference changes its sign where its stamps are exchanged, but for minus half a turn.
pub fn clock_sums() -> bool
    ensures { Stated ClockSums result }
{
    true
}
