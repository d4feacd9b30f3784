ghost use Rattle.std.specs.Prelude.{length};
ghost use Rattle.book.specs.View.{held_by, memory_of};
ghost use Rattle.bonds.specs.Lists.{Lists, OnlyLists};
ghost use Rattle.bonds.specs.Pairs.{fed_mark, feeder_mark, place_pairs, side_mark, side_pairs};

use crate::faults::BondFault;
use crate::kinds::{BondKind, Places, Sides};
use crate::shape::BookBond;
use book::Book;
use groups::list_groups;

// Lists the groups of a book's bond of a kind.
fn list_bond<K: BondKind>(book: &Book, list: &mut [u64]) -> Result<usize, BondFault>
    ensures { Lists book.now.steps (length (memory_of book.now)) (K.pairs (held_by book.now)) K.FIRST_MARK K.SECOND_MARK list.old list.new result }
{
    book.open_or_void()?;
    let mut bond = BookBond::<K>::of(book);
    let count = list_groups(&mut bond, K::FIRST_MARK, K::SECOND_MARK, list)?;
    Ok(count)
}

// A book has two lists, so there are two calls, a line each over `list_bond`.

// Lists the places of a book's net: the largest groups of its place bond that have a feeder and a fed step, fewest points
// first and ties by the smaller number. No other answer is right, and no other memory.
pub fn list_places(book: &Book, list: &mut [u64]) -> Result<usize, BondFault>
    ensures listed { Lists book.now.steps (length (memory_of book.now)) (place_pairs (held_by book.now)) feeder_mark fed_mark list.old list.new result }
    ensures only { OnlyLists book.now.steps (length (memory_of book.now)) (place_pairs (held_by book.now)) feeder_mark fed_mark list.old list.new result }
{
    list_bond::<Places>(book, list)
}

// Lists the largest groups of a book's steps that run side by side, a step by itself being one too, fewest steps first and
// ties by the smaller number. No other answer is right, and no other memory.
pub fn list_sides(book: &Book, list: &mut [u64]) -> Result<usize, BondFault>
    ensures listed { Lists book.now.steps (length (memory_of book.now)) (side_pairs (held_by book.now)) side_mark side_mark list.old list.new result }
    ensures only { OnlyLists book.now.steps (length (memory_of book.now)) (side_pairs (held_by book.now)) side_mark side_mark list.old list.new result }
{
    list_bond::<Sides>(book, list)
}
