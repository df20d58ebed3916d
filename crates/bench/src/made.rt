// Arrays, and bytes that a linear generator makes of a seed.
ghost use Rattle.std.specs.Prelude.{◌≡◌, length};

// An array of one item all over; only its length is promised, so that no proof spells it out.
pub(crate) fn all<T: Copy, const N: usize>(item: T) -> [T; N]
    ensures { N ≡ length result }
{
    [item; N]
}

// The generator's next number.
fn next(seed: u32) -> u32 {
    seed.wrapping_mul(1_103_515_245).wrapping_add(12_345)
}

// The upper byte of a number, the one that the generator makes best.
pub(crate) fn upper(n: u32) -> u8 {
    n.to_be_bytes()[0]
}

// Made bytes all over.
pub(crate) fn fill(bytes: &mut [u8], seed: u32) {
    let mut n = seed;
    for b in bytes {
        n = next(n);
        *b = upper(n);
    }
}
