// What held bytes and new ones give, measured before a byte is copied.
ghost use Rattle.std.specs.Prelude.{◌≡◌, ◌++◌, get_or};
ghost use Rattle.gather.specs.Kind.{classify};
ghost use Rattle.gather.specs.Rule.{walk, add, begun_in};
ghost use Rattle.gather.specs.Steps.{sizes_of};

use crate::kind::{Kind, kind_at, kind_of};
use octets::byte_at;
use section::length_of;

// The sizes of what some bytes give, and how many sections they begin.
#[derive(Clone, Copy)]
pub struct Sizes {
    pub sections: usize,
    pub bytes: usize,
    pub held: usize,
    pub given_up: u8,
    pub begun: usize,
}

impl Sizes {
    // Those of bytes of which nothing comes.
    const NONE: Sizes = Sizes {
        sections: 0,
        bytes: 0,
        held: 0,
        given_up: 0,
        begun: 0,
    };
}

// A byte of the held bytes and the new ones after them, or 0 past their end.
fn joined_byte(held: &[u8], new: &[u8], i: usize) -> u8
    ensures { result ≡ get_or (held.now ++ new.now) i 0 }
{
    if i < held.len() {
        held[i]
    } else {
        byte_at(new, i - held.len())
    }
}

// The kind of the held bytes with the new ones after them.
pub(crate) fn joined_kind(held: &[u8], new: &[u8]) -> Kind
    ensures { result ≡ classify (held.now ++ new.now) }
{
    let first = joined_byte(held, new, 0);
    let second = joined_byte(held, new, 1);
    let third = joined_byte(held, new, 2);
    kind_of(first, length_of(second, third), held.len() + new.len())
}

// What new bytes, added to the held ones, give: they begin no section.
pub(crate) fn added(held: &[u8], new: &[u8]) -> Sizes
    ensures { result ≡ sizes_of 0 (add held.now new.now) }
{
    if held.len() == 0 {
        return Sizes::NONE;
    }
    match joined_kind(held, new) {
        Kind::Nothing => Sizes::NONE,
        Kind::Part => Sizes {
            held: held.len() + new.len(),
            ..Sizes::NONE
        },
        Kind::Overlong => Sizes {
            given_up: 1,
            ..Sizes::NONE
        },
        Kind::Whole(n) => Sizes {
            sections: 1,
            bytes: n,
            ..Sizes::NONE
        },
    }
}

// What some bytes give, section after section.
// The step is the size of the section that stands there, so there is no index to go over.
pub(crate) fn walk(s: &[u8]) -> Sizes
    ensures { result ≡ sizes_of (begun_in s.now) (walk s.now) }
{
    let mut sections: usize = 0;
    let mut bytes: usize = 0;
    loop {
        // what stands here is begun, but where it is nothing
        let ended = Sizes {
            sections,
            bytes,
            begun: sections + 1,
            ..Sizes::NONE
        };
        match kind_at(s, bytes) {
            Kind::Nothing => return Sizes {
                begun: sections,
                ..ended
            },
            Kind::Part => return Sizes {
                held: s.len() - bytes,
                ..ended
            },
            Kind::Overlong => return Sizes {
                given_up: 1,
                ..ended
            },
            Kind::Whole(n) => {
                sections += 1;
                bytes += n;
            }
        }
    }
}
