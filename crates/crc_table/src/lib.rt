// What 32 shifts without input make of CRC_32's register, by its four bytes: the shifts are linear, so it is the sum of what they make of each byte.
#![tactic(auto)]

mod tables;

ghost use Rattle.crc_table.specs.Promises.{GivesThrough};

use crate::tables::TABLES;

// What 32 shifts make of the register.
pub fn through(register: u32) -> u32
    ensures { GivesThrough register result }
{
    let [lowest, second, third, top] = register.to_le_bytes();
    TABLES[0][lowest as usize]
        ^ TABLES[1][second as usize]
        ^ TABLES[2][third as usize]
        ^ TABLES[3][top as usize]
}
