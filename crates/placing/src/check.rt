// The checks of place.
ghost use Rattle.std.specs.Prelude.{◌≡◌, ◌≤◌};
ghost use Rattle.placing.specs.Placements.{place_check};

use ranges::hit::{AllPoints, lowest_missed};
use ranges::refusal::Refusal;
use ranges::space::Space;
use runs::buffers::Lengths;

// The checks of place, in number order.
pub(crate) fn check_place<S: Space>(
    s: &S,
    need: usize,
    lengths: Lengths,
    sheet: usize,
) -> Result<(), Refusal>
    ensures check { result ≡ place_check (S.Space.meaning s.now) need lengths.weights lengths.marks lengths.ledger lengths.scratch sheet }
{
    let n = s.points() as usize;
    if let Some(j) = lowest_missed(s, &AllPoints) {
        return Err(Refusal::EmptyRange(j));
    }
    if lengths.weights != n || lengths.marks != n {
        return Err(Refusal::WrongLength);
    }
    if lengths.ledger < 3 * n {
        return Err(Refusal::LedgerLength);
    }
    if lengths.scratch < need {
        return Err(Refusal::ShortScratch);
    }
    if sheet < 24 * n + 320 {
        return Err(Refusal::ShortBuffer);
    }
    Ok(())
}
