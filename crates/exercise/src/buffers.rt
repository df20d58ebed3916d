// The buffers and the list that every line finds, and what it changes in them.
ghost use Rattle.std.specs.Prelude.{◌<◌, ◌≤◌, length, IfSome};

use crate::outcome::{Tell, word};
use text::Text;

// The first items of a buffer or a list, to be written: as many as there are at most.
pub(crate) fn first_of<T>(items: &mut [T], size: u64) -> &mut [T] {
    let n = items.len().min(size as usize);
    &mut items[..n]
}

// So many items are compared at once, by the library's equality of slices.
const GROUP: usize = 64;

// How many items the groups before this one have; where there is none, all the whole groups of so many items.
fn passed(group: Option<usize>, items: usize) -> usize
    ensures { result ≤ items }
{
    match group {
        Some(i) => i.saturating_mul(GROUP).min(items),
        None => items / GROUP * GROUP,
    }
}

// The first and the last place where two buffers of one size differ. Groups that are the same are passed at once, from the front and then from the back.
fn apart<T: PartialEq>(now: &[T], before: &[T]) -> Option<(usize, usize)>
    ensures { IfSome result (λ r. (r.0 ≤ r.1) × (r.1 < length now.now)) }
{
    let group = now
        .chunks_exact(GROUP)
        .zip(before.chunks_exact(GROUP))
        .position(|(a, b)| a != b);
    let same = passed(group, now.len().min(before.len()));
    let (now, before) = (&now[same..], &before[same..]);
    let first = now.iter().zip(before).position(|(a, b)| a != b)?;
    let (now, before) = (&now[first..], &before[first..]);
    let group = now
        .rchunks_exact(GROUP)
        .zip(before.rchunks_exact(GROUP))
        .position(|(a, b)| a != b);
    let behind = passed(group, now.len().min(before.len()));
    let more = now[..now.len() - behind]
        .iter()
        .zip(&before[..before.len() - behind])
        .rposition(|(a, b)| a != b)?;
    Some((same + first, same + first + more))
}

// The name of a buffer or of the list, and the first and the last place that changed. What stands from the first to the last is told behind them, or a dash where nothing changed.
pub(crate) fn changed<'a, T: PartialEq>(
    text: &mut Text<'_>,
    name: &[u8],
    now: &'a [T],
    before: &[T],
) -> Option<&'a [T]> {
    word(text, name);
    let (first, last) = apart(now, before)?;
    first.tell(text);
    last.tell(text);
    Some(&now[first..last + 1])
}

// Bytes written to a buffer from a place on, where they end in it.
pub(crate) fn put(buffer: &mut [u8], place: u64, bytes: &[u8]) -> Option<()> {
    let rest = buffer.get_mut(usize::try_from(place).ok()?..)?;
    rest.get_mut(..bytes.len())?.copy_from_slice(bytes);
    Some(())
}

// A place of the list set, where there is such a place.
pub(crate) fn put_set(list: &mut [u32], place: u64, set: u64) -> Option<()> {
    let set = u32::try_from(set).ok()?;
    *list.get_mut(usize::try_from(place).ok()?)? = set;
    Some(())
}
