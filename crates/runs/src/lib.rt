// The third demand: what any run of calls hands to whom. The definitions are in specs/, the proof in proofs/.
#![tactic(auto)]

pub mod loss;

ghost use Rattle.ground.specs.Outcome.{Stated};
ghost use Rattle.runs.specs.Promises.{DemandThreeHolds};

// True, and with it the third demand: of every run of calls, also as they come, and of none of the wrong drivers.
pub fn demand_three() -> bool
    ensures { Stated DemandThreeHolds result }
{
    true
}
