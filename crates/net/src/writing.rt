ghost use Rattle.std.specs.Prelude.{◌<◌, slice_index};
ghost use Rattle.cursors.specs.Adds.{Adds};
ghost use Rattle.flow.specs.Bits.{bit};
ghost use Rattle.net.specs.Kinds.{number_of};
ghost use Rattle.net.specs.Writing.{group_words, groups_words, loop_words, step_words, words_by};

use crate::kinds::Kind;
use crate::places::PlaceList;
use crate::plans::Plan;
use crate::points::{fed, feeders};
use cursors::{Cursor, Put};
use flow::StepSet;

// Puts a word for each step of a set.
fn put_steps(cursor: &mut Cursor<'_, u32>, kind: Kind, steps: StepSet)
    ensures { Adds cursor.old (step_words (number_of kind) (bit steps)) cursor.new }
{
    for step in steps.iter() {
        cursor.put(kind.word(step as u32));
    }
}

// Puts the words of the place with this number.
fn put_place(cursor: &mut Cursor<'_, u32>, number: usize, place: u64)
    requires { number < 256 }
    ensures { Adds cursor.old (group_words number place) cursor.new }
{
    cursor.put(Kind::Place.word(number as u32));
    put_steps(cursor, Kind::Feeder, StepSet::from(feeders(place)));
    put_steps(cursor, Kind::Fed, StepSet::from(fed(place)));
}

// Puts the words of all places.
fn put_places(cursor: &mut Cursor<'_, u32>, places: PlaceList<'_>)
    ensures { Adds cursor.old (groups_words places.entry.list.now) cursor.new }
{
    for (number, place) in places.list.iter().enumerate() {
        put_place(cursor, number, *place);
    }
}

// Puts a word for each looping step, with the number of its place, which the words of `put_steps` have not.
fn put_loops(cursor: &mut Cursor<'_, u32>, steps: StepSet, seats: &[u8; 32])
    ensures { Adds cursor.old (loop_words (bit steps) (λ t. slice_index seats.now t)) cursor.new }
{
    for step in steps.iter() {
        cursor.put(Kind::Looping.word(u32::from(seats[step]) * 256 + step as u32));
    }
}

// The words of a net: its steps, its places, its looping steps with their seats, and how many places there are.
impl Put<u32> for Plan<'_> {
    ghost items = { λ plan. words_by plan.relations plan.places.list.now plan.seats };

    fn put_into(&self, cursor: &mut Cursor<'_, u32>) {
        put_steps(cursor, Kind::Seen, self.relations.seen);
        put_steps(cursor, Kind::First, self.relations.first);
        put_steps(cursor, Kind::Last, self.relations.last);
        put_places(cursor, self.places);
        put_loops(cursor, self.relations.looping, &self.seats);
        cursor.put(Kind::Count.word(self.places.list.len() as u32));
    }
}
