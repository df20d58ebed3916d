// A stream of 20,480 packets in memory, of each 160 of which 1, 9 or all are on the PIDs that filters are open on.
ghost use Rattle.std.specs.Prelude.{◌≡◌, ◌+◌, ◌<◌, ◌≤◌, length};

use crate::made;
use crate::made::all;
use crate::scenario::Share;
use packet::PACKET_BYTES;

// How many packets there are: of the fewest wanted ones each of 8 PIDs has 16.
const PACKETS: usize = 20480;

// The bytes of a packet.
type Bytes = [u8; PACKET_BYTES];

// The first PID that is wanted.
pub(crate) const FIRST_PID: u16 = 0x100;

// The table_id of the sections.
pub(crate) const TABLE: u8 = 0x80;

// The byte that stuffing is.
const STUFFING: u8 = 0xFF;

// The PID that no filter is open on.
const OTHER_PID: u16 = 0x200;

// The packets one behind the other.
type Stream = [u8; 3850240];

// Where a wanted packet goes: which of the PIDs, and which of the PID's packets it is.
#[derive(Clone, Copy)]
struct Turn {
    pid: usize,
    number: usize,
}

// A stream of zeros.
pub(crate) fn zeros() -> Stream
    ensures { 3850240 ≡ length result }
{
    all(0)
}

// How many wanted packets stand before this one, by the share.
fn wanted_before(share: Share, i: usize) -> usize
    requires { i ≤ 20480 }
    ensures { result ≤ 20480 }
{
    match share {
        Share::Fewest => (i + 159) / 160,
        Share::Few => (9 * i + 159) / 160,
        Share::All => i,
    }
}

// The turn of a wanted packet: the PIDs take turns.
fn turn_of(wanted: usize, is_many: bool) -> Turn
    ensures { result.pid < 8 }
{
    if is_many {
        Turn {
            pid: wanted % 8,
            number: wanted / 8,
        }
    } else {
        Turn {
            pid: 0,
            number: wanted,
        }
    }
}

// A packet's header: the first bits of its second byte beside the PID, and its fourth byte.
fn head(p: &mut Bytes, bits: u8, pid: u16, fourth: u8)
    requires { (bits ≤ 64) × (pid < 8192) }
{
    p[0] = 0x47;
    let [high, low] = pid.to_be_bytes();
    p[1] = bits + high;
    p[2] = low;
    p[3] = fourth;
}

// The header of a section of this size. The size is a constant of each caller.
fn section(p: &mut Bytes, at: usize, size: usize)
    requires { (at + 2 < 188) × (3 ≤ size) × (size ≤ 1024) }
{
    let length = size - 3;
    p[at] = TABLE;
    p[at + 1] = 0x30 + (length / 256) as u8;
    p[at + 2] = (length % 256) as u8;
}

// The sections that start in a packet of this kind, and stuffing behind the last one, where it ends there.
// Of 16 packets of a PID 8 bring a section of 100 bytes, 2 bring three of 50, and 6 together one of 1,024.
fn sections(p: &mut Bytes, kind: usize) {
    p[4] = 0;
    match kind {
        0..=7 => {
            section(p, 5, 100);
            p[105..].fill(STUFFING);
        }
        8..=9 => {
            section(p, 5, 50);
            section(p, 55, 50);
            section(p, 105, 50);
            p[155..].fill(STUFFING);
        }
        _ => section(p, 5, 1024),
    }
}

// A packet that is wanted; its kind is its number modulo 16.
fn wanted(p: &mut Bytes, turn: Turn)
    requires { turn.pid < 8 }
{
    let kind = turn.number % 16;
    let pid = FIRST_PID + (turn.pid as u16);
    made::fill(p, (turn.number % 65536) as u32);
    if kind < 11 {
        head(p, 0x40, pid, 0x10 + (kind as u8));
        sections(p, kind);
        return;
    }
    head(p, 0, pid, 0x10 + (kind as u8));
    if kind == 15 {
        p[109..].fill(STUFFING);
    }
}

// A packet that is not wanted, one in 12 with a PCR. Nobody reads its payload, which stays 0.
fn unwanted(p: &mut Bytes, i: usize) {
    if i % 12 == 0 {
        head(p, 0, OTHER_PID, 0x30);
        p[4] = 7;
        p[5] = 0x10;
        return;
    }
    head(p, 0, OTHER_PID, 0x10);
}

// The packet at an index of the stream.
fn packet_at(i: usize, share: Share, is_many: bool) -> Bytes
    requires { i < 20480 }
{
    let mut p: Bytes = [0; PACKET_BYTES];
    let before = wanted_before(share, i);
    if wanted_before(share, i + 1) == before {
        unwanted(&mut p, i);
    } else {
        wanted(&mut p, turn_of(before, is_many));
    }
    p
}

// Makes the stream of a share, for one PID or for 8.
pub(crate) fn make(stream: &mut [u8], share: Share, is_many: bool)
    requires { 3850240 ≡ length stream.old }
{
    for i in 0..PACKETS {
        let place = PACKET_BYTES * i;
        stream[place..place + PACKET_BYTES].copy_from_slice(&packet_at(i, share, is_many));
    }
}
