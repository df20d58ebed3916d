// The transport rate between two clock references, in bytes a second, as a double; and the record of the lowest, the latest and the highest.
#![tactic(auto)]

ghost use Rattle.std.specs.Prelude.{◌≡◌, ◌≤◌, ◌<◌, ◌^◌};
ghost use Rattle.rates.specs.Rate.{byte_rate, is_ordered, is_unordered, lower, higher, with_rate, told_rates};
ghost use Rattle.rates.specs.Steps.{rated_over};
ghost use Rattle.rates.specs.Promises.{GivesRate};

use clock::reference;
use clock::reference::Reference;
use ground::Refusal;

pub mod laws;

// Rates in bytes a second.
#[derive(Clone, Copy)]
pub struct Rates {
    pub lowest: f64,
    pub latest: f64,
    pub highest: f64,
}

// The clock of 27 MHz.
const TICKS_A_SECOND: u64 = 27_000_000;

// Times the clock's ticks they are below 2^53, up to which every whole number is a double; one more would be above it.
const MOST_BYTES: u64 = 333_599_972;

// Whether lowest ≤ latest ≤ highest; a NaN is in no order.
fn is_ordered(r: Rates) -> bool
    ensures { result ≡ is_ordered r }
{
    (r.lowest <= r.latest) & (r.latest <= r.highest)
}

// Whether a record was given in which that does not hold.
fn is_unordered(known: Option<Rates>) -> bool
    ensures { result ≡ is_unordered known }
{
    match known {
        None => false,
        Some(r) => !is_ordered(r),
    }
}

// The rate: two whole numbers are made doubles exactly, so that only the division rounds.
fn byte_rate(bytes: u64, ticks: u64) -> f64
    requires { (bytes ≤ 333599972) × (0 < ticks) × (ticks < 2 ^ 53) }
    ensures { result ≡ byte_rate bytes ticks }
{
    ((bytes * TICKS_A_SECOND) as f64) / (ticks as f64)
}

// The lower of two; an equal one leaves the old one, whose bits may differ.
fn lower(new: f64, old: f64) -> f64
    ensures { result ≡ lower new old }
{
    if new < old { new } else { old }
}

// The higher of two, likewise.
fn higher(new: f64, old: f64) -> f64
    ensures { result ≡ higher new old }
{
    if old < new { new } else { old }
}

// What is known with one rate more.
fn with_rate(known: Option<Rates>, rate: f64) -> Rates
    ensures { result ≡ with_rate known rate }
{
    match known {
        None => Rates {
            lowest: rate,
            latest: rate,
            highest: rate,
        },
        Some(r) => Rates {
            lowest: lower(rate, r.lowest),
            latest: rate,
            highest: higher(rate, r.highest),
        },
    }
}

// The rate of so many bytes in so many ticks, taken into what is known.
fn rated_over(known: Option<Rates>, bytes: u64, ticks: u64) -> Result<Rates, Refusal>
    requires { ticks < 2 ^ 53 }
    ensures { told_rates result ≡ rated_over known bytes ticks }
{
    if MOST_BYTES < bytes {
        return Err(Refusal::RateBytes);
    }
    if ticks == 0 {
        return Err(Refusal::RateTicks);
    }
    Ok(with_rate(known, byte_rate(bytes, ticks)))
}

// The rate of the bytes between two clock references, taken into what is known.
pub fn rate(
    known: Option<Rates>,
    bytes: u64,
    later: Reference,
    earlier: Reference,
) -> Result<Rates, Refusal>
    ensures { GivesRate known bytes later.0 earlier.0 result }
{
    if is_unordered(known) {
        return Err(Refusal::RateRecord);
    }
    let ticks = reference::forward(later, earlier)?;
    rated_over(known, bytes, ticks)
}
