ghost use Rattle.std.specs.Prelude.{length};
ghost use Rattle.book.specs.View.{held_by, memory_of};
ghost use Rattle.listing.specs.Drawn.{DrawnFor};
ghost use Rattle.listing.specs.Listed.{ListedOn, PagesTell};

use crate::faults::PageFault;
use crate::writing::Page;
use book::Book;
use cursors::write;
use net::{DrawFault, draw};
use steps::{Name, Roster};

// The most words that a net has: of the steps seen, first and last, of 256 places, of the looping steps, and one.
const MOST: usize = 16_769;

// Draws the net of a book.
fn draw_words<'a>(book: &Book, words: &'a mut [u32; MOST]) -> Result<&'a [u32], DrawFault>
    ensures { DrawnFor book.now.steps (length (memory_of book.now)) (held_by book.now) result }
{
    let count = draw(book, words)?;
    Ok(words.split_at(count).0)
}

// Lists the net of a book, row by row.
fn list_net(book: &Book, roster: &Roster<Name>, page: &mut [u8]) -> Result<usize, PageFault>
    ensures { ListedOn book.now.steps (length (memory_of book.now)) (held_by book.now) roster.now.entries.now page.old page.new result }
{
    book.open_or_void()?;
    roster.fit(book.steps())?;
    let mut words = [0u32; MOST];
    let names = roster.steps();
    let words = draw_words(book, &mut words)?;
    Ok(write(&Page { names, words }, page).ok_or(DrawFault::TooShort)?)
}

// Lists the net of a book by name, and leaves the rest of the page as it was; where it declines, all of it. Answers how many
// bytes the listing has. Two pages by one roster are equal exactly when the jobs agree on the five facts.
pub fn list_book(book: &Book, roster: &Roster<Name>, page: &mut [u8]) -> Result<usize, PageFault>
    ensures listed { ListedOn book.now.steps (length (memory_of book.now)) (held_by book.now) roster.now.entries.now page.old page.new result }
    ensures tells { PagesTell book.now.steps roster.now.entries.now }
{
    list_net(book, roster, page)
}
