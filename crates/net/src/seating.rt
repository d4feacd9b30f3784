ghost use Rattle.std.specs.Prelude.{◌≡◌, MatchResult, position};
ghost use Rattle.net.specs.Seating.{LowestBy, SeatsBelow, sits_by};

use crate::faults::Unseated;
use crate::places::PlaceList;
use flow::Relations;

// The number of the first place that the looping step t sits on.
fn seat(relations: &Relations, places: PlaceList<'_>, t: usize) -> Option<usize>
    ensures { result ≡ position (sits_by relations.now t) places.entry.list.now }
{
    places.between(relations.only_before(t), relations.only_after(t))
}

// The number of the place of each looping step, or else the lowest looping step that sits on no place.
pub(crate) fn find_seats(relations: &Relations, places: PlaceList<'_>) -> Result<[u8; 32], Unseated>
    ensures { MatchResult result (λ seats. SeatsBelow relations.now places.entry.list.now seats 32) (λ fault. LowestBy relations.now places.entry.list.now fault.step) }
{
    let mut seats = [0u8; 32];
    for step in relations.looping.iter() {
        let number = seat(relations, places, step).ok_or(Unseated { step })?;
        seats[step] = number as u8;
    }
    Ok(seats)
}
