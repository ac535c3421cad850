//! Which of some candidates comes first: one text for every kind of item that has an order.
//! The clauses `kept` and `other` say what a & says already: the project wants each call to say what it leaves.
#![tactic(auto)]

ghost use Rattle.std.specs.Prelude.{◌≡◌, ℕ, Bool, Option};
ghost use Rattle.urgency.specs.Urgency.{Connected, Asymmetric, Transitive, sooner, most_urgent, First};

/// Items of which any two have an order.
pub trait Urgent: Copy {
    // Whether one item comes before another.
    ghost before: { Self → Self → Bool };

    /// Whether this item comes before the other.
    fn is_before(&self, other: &Self) -> bool
        ensures value { result ≡ before self.now other.now }
        ensures kept { self.exit.now ≡ self.entry.now }
        ensures other { other.exit.now ≡ other.entry.now };

    // Any two different items are told apart.
    ghost connected: { Connected before };

    // Never both ways round.
    ghost asymmetric: { Asymmetric before };

    // Two steps in a row hold end to end.
    ghost transitive: { Transitive before };
}

// Not an iterator: its caller would have to prove that it ends, and the project wants no such demand on a public function.
/// Numbered places, each of which may hold a candidate.
pub trait Candidates {
    type Item: Urgent;

    // The candidate at a place, if there is one.
    ghost at: { Self → ℕ → Option Self.Item };

    /// The candidate at this place, if there is one.
    fn candidate(&self, place: u32) -> Option<Self::Item>
        ensures value { result ≡ at self.now place }
        ensures kept { self.exit.now ≡ self.entry.now };
}

// The more urgent of two, where either may be missing.
fn more_urgent<T: Urgent>(best: Option<T>, next: Option<T>) -> Option<T>
    ensures { result ≡ sooner T.Urgent.before best next }
{
    match (best, next) {
        (Some(held), Some(rival)) => {
            let first = if rival.is_before(&held) { rival } else { held };
            Some(first)
        }
        (Some(_), None) => best,
        (None, _) => next,
    }
}

/// The most urgent of the candidates in the places below `places`.
#[tactic(auto, using(crate::proofs::Found::most_none, crate::proofs::Found::most_more, crate::proofs::Found::found))]
pub fn most_urgent<C: Candidates>(candidates: &C, places: u32) -> Option<C::Item>
    ensures value { result ≡ most_urgent C.Item.Urgent.before (C.Candidates.at candidates.now) places }
    ensures first { First C.Item.Urgent.before (C.Candidates.at candidates.now) places result }
    ensures kept { candidates.exit.now ≡ candidates.entry.now }
{
    let mut best = None;
    // A loop: a fold by a closure was tried, and with this definition its proof did not close.
    for place in 0..places {
        best = more_urgent(best, candidates.candidate(place));
    }
    best
}
