// CRC_32 of H.222.0 Annex A, driven by tables that take four bytes at once.
#![tactic(auto)]

ghost use Rattle.std.specs.Prelude.{◌<◌, length};
ghost use Rattle.crc.specs.Promises.{GivesResidue};
ghost use Rattle.crc.specs.Steps.{Starts, Begins};

use crc_table::through;

// The register that holds all ones when as many zero bytes have gone in as n lacks of four.
fn start(n: usize) -> u32
    requires { n < 4 }
    ensures { Starts n result }
{
    match n {
        0 => 0x46af_6449,
        1 => 0x8164_74c5,
        2 => 0x09b9_3859,
        _ => 0x9bf1_a90f,
    }
}

// What goes through the tables first, with these bytes in it: less than four, so that the others are whole groups.
fn begun(first: &[u8]) -> u32
    requires { length first.now < 4 }
    ensures { Begins first.now result }
{
    let n = first.len();
    let mut key = start(n);
    for (i, byte) in first.iter().enumerate() {
        key ^= u32::from(*byte) << (8 * (n - 1 - i));
    }
    key
}

// What the decoder model ends at when the bytes have gone in, z(31) most significant: 0 where CRC_32 is right.
pub fn residue(bytes: &[u8]) -> u32
    ensures { GivesResidue bytes.now result }
{
    let (first, fours) = bytes.as_rchunks::<4>();
    let mut key = begun(first);
    for four in fours {
        key = through(key) ^ u32::from_be_bytes(*four);
    }
    through(key)
}
