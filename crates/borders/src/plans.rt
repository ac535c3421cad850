//! What the tests reserve.
ghost use Rattle.std.specs.Prelude.{◌≡◌};

use line::Reservation;

// So many slots in every period, with jobs stretched so far. It makes the struct, so it takes the three numbers.
pub(crate) fn plan(budget: u32, period: u32, max_stretch: u32) -> Reservation
    ensures { result ≡ record { budget = budget; period = period; max_stretch = max_stretch } }
{
    Reservation {
        budget,
        period,
        max_stretch,
    }
}
