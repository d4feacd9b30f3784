ghost use Rattle.std.specs.Prelude.{length};
ghost use Rattle.book.specs.View.{held_by, memory_of};
ghost use Rattle.net.specs.Draw.{Drew, OnlyDrew};
ghost use Rattle.net.specs.Finding.{Found};

use crate::faults::DrawFault;
use crate::places::PlaceList;
use crate::plans::Plan;
use bonds::list_places;
use book::Book;
use cursors::write;

// The most places that a net has.
const MOST: usize = 256;

// Lists the places of a book's net.
fn find_places<'a>(book: &Book, list: &'a mut [u64; MOST]) -> Result<PlaceList<'a>, DrawFault>
    ensures { Found book.now.steps (length (memory_of book.now)) (held_by book.now) result }
{
    let count = list_places(book, list)?;
    Ok(PlaceList {
        list: list.split_at(count).0,
    })
}

// Draws the net of a book, row by row.
fn draw_net(book: &Book, out: &mut [u32]) -> Result<usize, DrawFault>
    ensures { Drew book.now.steps (length (memory_of book.now)) (held_by book.now) out.old out.new result }
{
    let mut list = [0u64; MOST];
    let places = find_places(book, &mut list)?;
    // A match, since a plan holds places by reference beside sets, which `?` does not take.
    let plan = match Plan::of(book, places) {
        Ok(plan) => plan,
        Err(fault) => return Err(fault.into()),
    };
    write(&plan, out).ok_or(DrawFault::TooShort)
}

// Writes the words of a book's net at the start of the memory, and leaves the rest as it was; where it declines, all of it.
// Answers how many words there are. No other answer is right, and no other memory.
pub fn draw(book: &Book, out: &mut [u32]) -> Result<usize, DrawFault>
    ensures drew { Drew book.now.steps (length (memory_of book.now)) (held_by book.now) out.old out.new result }
    ensures only { OnlyDrew book.now.steps (length (memory_of book.now)) (held_by book.now) out.old out.new result }
{
    draw_net(book, out)
}
