// The lines of a packet: jump, repeat, cut and a line for each section, or the refusal.
#![tactic(auto, using(text::proofs::Laws::with_append))]

ghost use Rattle.std.specs.Prelude.{◌≡◌, [], ◌∷◌, Some};
ghost use Rattle.packet_call.specs.Packet.{told_report, pid_of};
ghost use Rattle.text.specs.Text.{told_text, with_bytes};
ghost use Rattle.lines.specs.Lines.{cell_of, line_of, section_word, mark_line, mark_lines, section_lines};
ghost use Rattle.lines.specs.Promises.{WritesHeader, WritesLines};

use driver::Report;
use ground::Refusal;
use octets::{byte_at, further, number_of_three};
use text::Text;

// The packet that a line is about.
#[derive(Clone, Copy)]
struct Subject {
    index: u64,
    pid: u16,
}

// A tab and a column: a number, or the dash for none.
fn column(text: &mut Text<'_>, value: Option<u64>)
    ensures { told_text text.new ≡ with_bytes (told_text text.old) (0x09 ∷ cell_of value) }
{
    text.byte(b'\t');
    match value {
        Some(n) => text.decimal(n),
        None => text.byte(b'-'),
    }
}

// The header line.
pub fn header(text: &mut Text<'_>)
    ensures { WritesHeader (told_text text.old) (told_text text.new) }
{
    text.word(b"packet\tpid\tword\tnumber\tbytes\n");
}

// One line: packet index, PID, word, number, bytes.
fn line(
    text: &mut Text<'_>,
    index: u64,
    pid: Option<u64>,
    word: &[u8],
    number: Option<u64>,
    bytes: Option<u64>,
)
    ensures { told_text text.new
        ≡ with_bytes (told_text text.old) (line_of index pid word.now number bytes) }
{
    text.decimal(index);
    column(text, pid);
    text.byte(b'\t');
    text.word(word);
    column(text, number);
    column(text, bytes);
    text.byte(b'\n');
}

// The lines of a packet that was answered so.
pub fn packet(
    text: &mut Text<'_>,
    index: u64,
    packet: &[u8],
    answer: Result<Option<Report>, Refusal>,
    out: &[u8],
)
    ensures { WritesLines (told_text text.old) index packet.now answer out.now (told_text text.new) }
{
    match answer {
        Ok(None) => {}
        Ok(Some(report)) => {
            let pid = pid_of(packet);
            let subject = Subject { index, pid };
            marks(text, subject, report);
            sections(text, subject, report.sections, out);
        }
        Err(why) => {
            let number = Some(u64::from(why.number()));
            line(text, index, None, b"refused", number, None);
        }
    }
}

// A packet's PID.
fn pid_of(packet: &[u8]) -> u16
    ensures { result ≡ pid_of packet.now }
{
    let high = byte_at(packet, 1);
    let low = byte_at(packet, 2);
    let last = byte_at(packet, 3);
    (number_of_three(high, low, last) / 256 % 8192) as u16
}

// The lines of what happened beside sections, in document 01's order.
fn marks(text: &mut Text<'_>, subject: Subject, report: Report)
    ensures { told_text text.new
        ≡ with_bytes (told_text text.old) (mark_lines subject.index subject.pid (told_report report)) }
{
    let cut = Some(u64::from(report.given_up));
    mark(text, subject, b"jump", report.jump, None);
    mark(text, subject, b"repeat", report.repeat, None);
    mark(text, subject, b"cut", 0 < report.given_up, cut);
}

// A line where it is so, and none else.
fn mark(text: &mut Text<'_>, subject: Subject, word: &[u8], is_so: bool, number: Option<u64>)
    ensures { told_text text.new
        ≡ with_bytes (told_text text.old) (mark_line subject.index subject.pid word.now is_so number) }
{
    if is_so {
        let pid = Some(u64::from(subject.pid));
        line(text, subject.index, pid, word, number, None);
    }
}

// A line for each section; they stand joined at the start of the output.
fn sections(text: &mut Text<'_>, subject: Subject, count: usize, out: &[u8])
    ensures { told_text text.new
        ≡ with_bytes (told_text text.old) (section_lines subject.index subject.pid count out.now) }
{
    let mut place = 0;
    for _ in 0..count {
        let size = section::size_at(out, place);
        let table = section::table_at(out, place);
        section(text, subject, table, size);
        place = further(place, size, out.len());
    }
}

// The line of a section of this table_id and size.
fn section(text: &mut Text<'_>, subject: Subject, table: u8, size: usize)
    ensures { told_text text.new
        ≡ with_bytes (told_text text.old) (line_of subject.index (Some subject.pid) section_word (Some table) (Some size)) }
{
    let pid = Some(u64::from(subject.pid));
    let table = Some(u64::from(table));
    line(
        text,
        subject.index,
        pid,
        b"section",
        table,
        Some(size as u64),
    );
}
