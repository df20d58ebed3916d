// What a rate is, and what the record is after any calls: request 8 of document 02, "Rates for the plotting desk".
ghost use Rattle.ground.specs.Outcome.{Stated};
ghost use Rattle.rates.specs.Laws.{RateLaws};

// True, and with it: a rate is the nearest double, and the record holds the lowest, the latest and the highest of the rates that were given.
pub fn rate_laws() -> bool
    ensures { Stated RateLaws result }
{
    true
}
