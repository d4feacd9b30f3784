ghost use Rattle.std.specs.Prelude.{◌≡◌};
ghost use Rattle.groups.specs.Rows.{held};
ghost use Rattle.groups.specs.Listings.{OneListing};
ghost use Rattle.groups.specs.Sorting.{Apart, Written};
ghost use Rattle.groups.specs.Told.{Told, OnlyTold};

use crate::bonds::Bond;
use crate::faults::ListFault;
use crate::marks::Marks;
use crate::rows::Rows;
use crate::searching::find_groups;
use crate::sorting::write_sorted;

// Writes the groups into the list, if it has room for all of them.
fn write_out(found: &[u64], list: &mut [u64]) -> Result<usize, ListFault>
    requires { Apart found.now }
    ensures { Written found.now list.old list.new result }
{
    if list.len() < found.len() {
        return Err(ListFault::TooShort);
    }
    write_sorted(found, list);
    Ok(found.len())
}

// Lists the largest groups of the pairs that the rows hold.
fn list_rows(rows: Rows, marks: Marks, list: &mut [u64]) -> Result<usize, ListFault>
    ensures told { Told (held rows.bits) marks.first marks.second list.old list.new result }
    ensures only { OnlyTold (held rows.bits) marks.first marks.second list.old list.new result }
    ensures one { OneListing (held rows.bits) marks.first marks.second }
{
    let found = find_groups(rows, marks)?;
    write_out(&found, list)
}

// Lists the largest groups that touch both marks, fewest points first and ties by the smaller number, each as the number
// in which the point p weighs 2^p. Answers how many there are, and leaves the words after them as they were; where it
// declines, all of them.
//
// It asks the bond for its size and for each pair once. However many largest groups the bond has, the search stops at the
// 257th that it is to list: it covers at most 4096 + 256 · 64 sets, each in at most 64 + 256 steps. At most 256 groups are
// then put in order.
pub fn list_groups<B: Bond>(
    bond: &mut B,
    first_mark: u64,
    second_mark: u64,
    list: &mut [u64],
) -> Result<usize, ListFault>
    ensures told { Told (B.Bond.pairs bond.old) first_mark second_mark list.old list.new result }
    ensures only { OnlyTold (B.Bond.pairs bond.old) first_mark second_mark list.old list.new result }
    ensures one { OneListing (B.Bond.pairs bond.old) first_mark second_mark }
    ensures stays { B.Bond.points bond.new ≡ B.Bond.points bond.old }
    ensures keeps { B.Bond.pairs bond.new ≡ B.Bond.pairs bond.old }
{
    let rows = Rows::read(bond);
    let marks = Marks {
        first: first_mark,
        second: second_mark,
    };
    list_rows(rows, marks, list)
}
