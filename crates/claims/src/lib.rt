// What is claimed of the definitions and of every public call: one record in specs/, one statement, proved crate by crate.
#![tactic(auto)]

ghost use Rattle.ground.specs.Outcome.{Stated};
ghost use Rattle.claims.specs.Claims.{EveryClaim};

// True, and with it every claim.
pub fn every_claim() -> bool
    ensures { Stated EveryClaim result }
{
    true
}
