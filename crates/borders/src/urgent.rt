//! A third kind of item and of table, made outside: the search serves any that keep the laws.
ghost use Rattle.std.specs.Prelude.{if◌then◌else◌, None as nothing, nat_eq, nat_lt};
ghost use Rattle.std.proofs.Common.{rules};

use urgency::{Candidates, Urgent, most_urgent};

// The lighter the more urgent.
#[derive(Clone, Copy, PartialEq, Eq, PartialOrd, Ord, Debug)]
struct Parcel {
    weight: u32,
}

impl Urgent for Parcel {
    ghost before = { λ a b. nat_lt a.weight b.weight };

    ghost connected = { Prim.search rules };

    ghost asymmetric = { Prim.search rules };

    ghost transitive = { Prim.search rules };

    fn is_before(&self, other: &Parcel) -> bool {
        self < other
    }
}

#[derive(Clone, Copy)]
struct Shelf {
    left: Option<Parcel>,
    right: Option<Parcel>,
}

impl Candidates for Shelf {
    type Item = Parcel;

    ghost at = { λ shelf place. (if nat_eq place 0 then shelf.left else (if nat_eq place 1 then shelf.right else nothing)) };

    fn candidate(&self, place: u32) -> Option<Parcel> {
        match place {
            0 => self.left,
            1 => self.right,
            _ => None,
        }
    }
}

#[test]
fn the_most_urgent_is_before_every_other(rt: HostRuntime) {
    let light = Some(Parcel { weight: 3 });
    let heavy = Some(Parcel { weight: 9 });
    let both = Shelf {
        left: heavy,
        right: light,
    };
    assert_eq!(rt; most_urgent(&both, 2), light);
    assert_eq!(rt; most_urgent(&both, 7), light);
    assert_eq!(rt; most_urgent(&both, 1), heavy);
    let swapped = Shelf {
        left: light,
        right: heavy,
    };
    assert_eq!(rt; most_urgent(&swapped, 2), light);
}

#[test]
fn without_a_candidate_there_is_none(rt: HostRuntime) {
    let light = Some(Parcel { weight: 3 });
    let empty = Shelf {
        left: None,
        right: None,
    };
    assert_eq!(rt; most_urgent(&empty, 2), None);
    let one = Shelf {
        left: None,
        right: light,
    };
    assert_eq!(rt; most_urgent(&one, 2), light);
    assert_eq!(rt; most_urgent(&one, 1), None);
    assert_eq!(rt; most_urgent(&one, 0), None);
}
