// PIDs: the 13 bits that say whose packet it is.
#![tactic(auto)]

ghost use Rattle.std.specs.Prelude.{◌≡◌, [], ◌∷◌};
ghost use Rattle.pid.specs.Promises.{MakesPid};

use ground::Refusal;

// A number above 0x1FFF can be written down as a PID; no packet has it.
#[derive(Clone, Copy, PartialEq, Eq)]
pub struct Pid(pub u16);

impl Pid {
    pub const PROGRAM_ASSOCIATION: Pid = Pid(0x0000);

    pub const CONDITIONAL_ACCESS: Pid = Pid(0x0001);

    pub const NULL: Pid = Pid(0x1FFF);

    // The PID of this number: document 01 names a checked constructor, so that it is no `TryFrom`.
    pub fn new(n: u16) -> Result<Pid, Refusal>
        ensures { MakesPid n result }
    {
        if Pid::NULL.0 < n {
            return Err(Refusal::PidRange);
        }
        Ok(Pid(n))
    }
}

// The numbers of the three constants.
fn well_known() -> [u16; 3]
    ensures { result ≡ 0x0000 ∷ 0x0001 ∷ 0x1FFF ∷ [] }
{
    [
        Pid::PROGRAM_ASSOCIATION.0,
        Pid::CONDITIONAL_ACCESS.0,
        Pid::NULL.0,
    ]
}
