// The lines that need nothing that is kept.
use crate::buffers::first_of;
use crate::line::{Form, MOST_BYTES};
use crate::outcome::{Tell, bytes, digest, pair, word};
use crate::{rate_calls, table_calls};
use clock::reference::Reference;
use clock::stamp::{AnyStamp, Stamp};
use clock::{reference, stamp};
use ground::Refusal;
use packet::Packet;
use packet::adaptation::{Adaptation, Part};
use packet::extension::{Splice, Window};
use pes::Header;
use pes::stamps::Stamps;
use pid::Pid;
use text::Text;

// The outcome of a line; none of one that is not known, or of which a number is out of its range.
pub(crate) fn answer(form: Form<'_>, text: &mut Text<'_>) -> Option<()> {
    match (form.word, form.numbers, form.bytes) {
        (b"setstamp", &[prefix, stamp], Some(bytes)) => {
            let prefix = u8::try_from(prefix).ok()?;
            let stamp = Stamp(stamp);
            text.word(b"setstamp");
            set(text, bytes, |field| stamp::write(field, prefix, stamp));
        }
        (b"setclock", &[reference], Some(bytes)) => {
            let reference = Reference(reference);
            text.word(b"setclock");
            set(text, bytes, |field| reference::write(field, reference));
        }
        (b"apart", &[a, b], None) => {
            text.word(b"apart");
            stamp::difference(Stamp(a), Stamp(b)).tell(text);
        }
        (b"forward", &[a, b], None) => {
            text.word(b"forward");
            reference::forward(Reference(a), Reference(b)).tell(text);
        }
        (b"rate", &[bytes, later, earlier], None) => {
            text.word(b"rate");
            rate_calls::rated(None, bytes, later, earlier, text);
        }
        (b"rerate", &[lowest, latest, highest, bytes, later, earlier], None) => {
            let known = rate_calls::known(lowest, latest, highest);
            text.word(b"rerate");
            rate_calls::rated(Some(known), bytes, later, earlier, text);
        }
        (b"pid", &[n], None) => {
            let n = u16::try_from(n).ok()?;
            text.word(b"pid");
            Pid::new(n).tell(text);
        }
        _ => reading(form, text)?,
    }
    Some(())
}

// The outcome of a line that only reads.
fn reading(form: Form<'_>, text: &mut Text<'_>) -> Option<()> {
    match (form.word, form.numbers, form.bytes) {
        (b"alone", &[], Some(bytes)) => alone(bytes, text),
        (b"pes", &[], Some(bytes)) => {
            text.word(b"pes");
            pes::read(bytes).tell(text);
        }
        (b"stamp", &[prefix], Some(bytes)) => {
            let prefix = u8::try_from(prefix).ok()?;
            text.word(b"stamp");
            stamp::read(bytes, prefix).tell(text);
        }
        (b"anystamp", &[], Some(bytes)) => {
            text.word(b"anystamp");
            stamp::read_any(bytes).tell(text);
        }
        (b"clock", &[], Some(bytes)) => {
            text.word(b"clock");
            reference::read(bytes).tell(text);
        }
        _ => table_calls::answer(form, text)?,
    }
    Some(())
}

// A line's bytes, to be written to.
fn copied(bytes: &[u8]) -> [u8; MOST_BYTES] {
    let mut room = [0; MOST_BYTES];
    let size = bytes.len().min(MOST_BYTES);
    room[..size].copy_from_slice(&bytes[..size]);
    room
}

// A field written by a call to a line's bytes, and how these are then.
fn set<F: FnOnce(&mut [u8]) -> Result<(), Refusal>>(text: &mut Text<'_>, line: &[u8], write: F)
    requires { F.IsAlwaysCallable write }
{
    let mut room = copied(line);
    let field = first_of(&mut room, line.len() as u64);
    written(write(field), text);
    bytes(text, field);
}

// Whether a field was written.
fn written(answer: Result<(), Refusal>, text: &mut Text<'_>) {
    match answer {
        Ok(()) => word(text, b"written"),
        Err(why) => why.tell(text),
    }
}

// A stamp read behind any four bits, and these bits.
impl Tell for AnyStamp {
    fn tell(self, text: &mut Text<'_>) {
        self.prefix.tell(text);
        self.stamp.tell(text);
    }
}

// A packet read alone, and its payload.
fn alone(bytes: &[u8], text: &mut Text<'_>) {
    text.word(b"alone");
    packet::read(bytes).tell(text);
    let payload = packet::payload(bytes);
    word(text, b"payload");
    payload.len().tell(text);
    digest(payload).tell(text);
}

// A packet's fields, its adaptation field last.
impl Tell for Packet {
    fn tell(self, text: &mut Text<'_>) {
        self.unit_start.tell(text);
        self.priority.tell(text);
        self.pid.tell(text);
        self.scrambling.tell(text);
        self.control.tell(text);
        self.counter.tell(text);
        self.field.tell(text);
    }
}

// An adaptation field's parts, those of its extension last.
impl Tell for Adaptation {
    fn tell(self, text: &mut Text<'_>) {
        self.length.tell(text);
        self.discontinuity.tell(text);
        self.random_access.tell(text);
        self.stream_priority.tell(text);
        self.pcr.tell(text);
        self.opcr.tell(text);
        self.countdown.map(i64::from).tell(text);
        self.private_data.tell(text);
        self.extension.tell(text);
        self.window.tell(text);
        self.rate.tell(text);
        self.splice.tell(text);
    }
}

// Where a part starts and its size.
impl Tell for Part {
    fn tell(self, text: &mut Text<'_>) {
        pair(text, self.start as u64, u64::from(self.size));
    }
}

impl Tell for Window {
    fn tell(self, text: &mut Text<'_>) {
        pair(text, u64::from(self.valid), u64::from(self.offset));
    }
}

impl Tell for Splice {
    fn tell(self, text: &mut Text<'_>) {
        pair(text, u64::from(self.splice_type), self.stamp.0);
    }
}

// A PES header, or the two fields of a packet that has none.
impl Tell for pes::Reading {
    fn tell(self, text: &mut Text<'_>) {
        match self {
            pes::Reading::Bare {
                stream_id,
                packet_length,
            } => {
                word(text, b"bare");
                stream_id.tell(text);
                packet_length.tell(text);
            }
            pes::Reading::Full(header) => header.tell(text),
        }
    }
}

// A whole PES header's fields.
impl Tell for Header {
    fn tell(self, text: &mut Text<'_>) {
        word(text, b"full");
        self.stream_id.tell(text);
        self.packet_length.tell(text);
        self.header_length.tell(text);
        self.escr.tell(text);
        self.rate.tell(text);
        self.trick.tell(text);
        self.copy.tell(text);
        self.crc.tell(text);
        self.extension.tell(text);
        word(text, b"stamps");
        self.stamps.tell(text);
    }
}

impl Tell for Stamps {
    fn tell(self, text: &mut Text<'_>) {
        match self {
            Stamps::Absent => word(text, b"-"),
            Stamps::Pts(pts) => pts.tell(text),
            Stamps::Both { pts, dts } => {
                pts.tell(text);
                dts.tell(text);
            }
        }
    }
}
