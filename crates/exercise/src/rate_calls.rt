// The lines about rates. A double is told by its bits, as a number.
use crate::outcome::Tell;
use clock::reference::Reference;
use rates::Rates;
use text::Text;

// The double of some bits. The language makes none of a NaN's pattern, so each of these is made by 0 / 0.
fn double_of(bits: u64) -> f64 {
    if 0x7FF0_0000_0000_0000 < bits % 0x8000_0000_0000_0000 {
        return 0.0 / 0.0;
    }
    f64::from_bits(bits)
}

// The record of three doubles.
pub(crate) fn known(lowest: u64, latest: u64, highest: u64) -> Rates {
    Rates {
        lowest: double_of(lowest),
        latest: double_of(latest),
        highest: double_of(highest),
    }
}

// The rate of a line whose bytes and references are these, taken into what is known.
pub(crate) fn rated(
    known: Option<Rates>,
    bytes: u64,
    later: u64,
    earlier: u64,
    text: &mut Text<'_>,
) {
    match rates::rate(known, bytes, Reference(later), Reference(earlier)) {
        Ok(r) => {
            f64::to_bits(r.lowest).tell(text);
            f64::to_bits(r.latest).tell(text);
            f64::to_bits(r.highest).tell(text);
        }
        Err(why) => why.tell(text),
    }
}
