// Sections of program specific information: what the first eight bytes of a section say, and the refusals that a PAT and a PMT share.
#![tactic(auto)]

ghost use Rattle.psi.specs.Promises.{ReadsHead, Judges};

use ground::Refusal;
use octets::number_of_two;
use section::{LONGEST_LENGTH, length_of};

// Bytes 3 to 7 of a section.
#[derive(Clone, Copy)]
pub struct Head {
    pub id: u16,
    pub version: u8,
    pub current: bool,
    pub number: u8,
    pub last: u8,
}

// The fields of a section's bytes 3 to 7.
pub fn head_of(bytes: [u8; 5]) -> Head
    ensures { ReadsHead bytes result }
{
    let [third, fourth, fifth, sixth, seventh] = bytes;
    Head {
        id: number_of_two(third, fourth),
        version: fifth / 2 % 32,
        current: fifth % 2 == 1,
        number: sixth,
        last: seventh,
    }
}

// Judges a section by what a PAT and a PMT share: its size, table_id, syntax bits, least length and CRC_32.
pub fn judge(section: &[u8], table: u8, least: usize) -> Result<(), Refusal>
    ensures { Judges section.now table least result }
{
    let &[table_id, second, third, ..] = section else {
        return Err(Refusal::SectionSize);
    };
    let length = length_of(second, third);
    if LONGEST_LENGTH < length || section.len() != 3 + length {
        Err(Refusal::SectionSize)
    } else if table_id != table {
        Err(Refusal::OtherTable)
    } else if second / 128 % 2 != 1 || second / 64 % 2 != 0 {
        Err(Refusal::SyntaxBits)
    } else if 1021 < length || length < least {
        Err(Refusal::SectionLength)
    } else if crc::residue(section) != 0 {
        Err(Refusal::WrongCrc)
    } else {
        Ok(())
    }
}
