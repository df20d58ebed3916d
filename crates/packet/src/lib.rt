// Transport packets of 188 bytes: the header, the adaptation field, and the part that holds the payload.
#![tactic(auto)]

ghost use Rattle.std.specs.Prelude.{◌≡◌};
ghost use Rattle.ground.specs.Lent.{lent};
ghost use Rattle.packet.specs.Adaptation.{told_field};
ghost use Rattle.packet.specs.Packet.{told_packet, is_error, control_of, contents_of};
ghost use Rattle.packet.specs.Promises.{ReadsPacket, FindsPayloadStart, GivesPayload};

use crate::adaptation::Adaptation;
use ground::Refusal;
use octets::number_of_three;
use pid::Pid;

pub mod adaptation;
pub mod extension;

// "188-byte transport packets".
pub const PACKET_BYTES: usize = 188;

// What a packet says, one field for each thing read. Scrambling and control are told as their bits stand.
#[derive(Clone, Copy)]
pub struct Packet {
    pub unit_start: bool,
    pub priority: bool,
    pub pid: Pid,
    pub scrambling: u8,
    pub control: u8,
    pub counter: u8,
    pub field: Adaptation,
}

// Whether the error indicator is set.
fn is_error(header: u32) -> bool
    ensures { result ≡ is_error header }
{
    header / 0x80_0000 % 2 == 1
}

// The adaptation control.
fn control_of(header: u32) -> u8
    ensures { result ≡ control_of header }
{
    (header / 16 % 4) as u8
}

// What the header's bits say, beside the adaptation field.
fn packet_of(header: u32, field: Adaptation) -> Packet
    ensures { told_packet result ≡ contents_of header (told_field field) }
{
    Packet {
        unit_start: header / 0x40_0000 % 2 == 1,
        priority: header / 0x20_0000 % 2 == 1,
        pid: Pid((header / 256 % 8192) as u16),
        scrambling: (header / 64 % 4) as u8,
        control: (header / 16 % 4) as u8,
        counter: (header % 16) as u8,
        field,
    }
}

// What a packet says, or the first refusal that applies to it.
pub fn read(bytes: &[u8]) -> Result<Packet, Refusal>
    ensures { ReadsPacket bytes.now result }
{
    let Ok(bytes) = <&[u8; PACKET_BYTES]>::try_from(bytes) else {
        return Err(Refusal::PacketSize);
    };
    if bytes[0] != 0x47 {
        return Err(Refusal::SyncByte);
    }
    let header = number_of_three(bytes[1], bytes[2], bytes[3]);
    if is_error(header) {
        return Err(Refusal::TransportError);
    }
    let control = control_of(header);
    if control == 0 {
        return Err(Refusal::NoPayloadNorField);
    }
    let field = adaptation::read(bytes, control)?;
    Ok(packet_of(header, field))
}

// Where the payload of a packet that reads so begins.
pub fn payload_start(packet: Packet) -> usize
    ensures { FindsPayloadStart packet result }
{
    match packet.field.length {
        None => 4,
        Some(n) => 5 + (n as usize),
    }
}

// The part of the packet that holds the payload: empty, at the packet's end, where there is none or the packet is refused.
// It is no `Result`: a call that can't fail still can't (`GivesPayload`).
pub fn payload(bytes: &[u8]) -> &[u8]
    ensures { GivesPayload (lent bytes.entry) (lent result) }
{
    match read(bytes) {
        Ok(packet) => &bytes[payload_start(packet)..],
        Err(_) => &bytes[bytes.len()..],
    }
}
