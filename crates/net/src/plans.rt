ghost use Rattle.std.specs.Prelude.{MatchResult};
ghost use Rattle.book.specs.View.{held_by};
ghost use Rattle.net.specs.Draw.{LowestUnseated};
ghost use Rattle.net.specs.Net.{Draws, Places};
ghost use Rattle.net.specs.Writing.{words_by};

use crate::faults::Unseated;
use crate::places::PlaceList;
use crate::seating::find_seats;
use book::Book;
use flow::Relations;

// What a net is drawn from: the relations of its steps, its places, and at t the number of the place that the looping step t
// sits on.
#[derive(Drop)]
pub(crate) struct Plan<'a> {
    pub(crate) relations: Relations,
    pub(crate) places: PlaceList<'a>,
    pub(crate) seats: [u8; 32],
}

impl<'a> Plan<'a> {
    // The plan of a book's net, or else the lowest looping step that sits on none of its places.
    pub(crate) fn of(book: &Book, places: PlaceList<'a>) -> Result<Plan<'a>, Unseated>
        requires { Places (held_by book.now) places.list.now }
        ensures { MatchResult result (λ plan. Draws (held_by book.now) (words_by plan.relations plan.places.list.now plan.seats)) (λ fault. LowestUnseated (held_by book.now) places.entry.list.now fault.step) }
    {
        let relations = Relations::of(book);
        let seats = find_seats(&relations, places)?;
        Ok(Plan {
            relations,
            places,
            seats,
        })
    }
}
