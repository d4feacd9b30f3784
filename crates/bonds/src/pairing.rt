ghost use Rattle.std.specs.Prelude.{◌≡◌, length};
ghost use Rattle.book.specs.Jobs.{Opens};
ghost use Rattle.book.specs.View.{held_by, memory_of};
ghost use Rattle.bonds.specs.Pairs.{of_book, pairs_if};
ghost use Rattle.bonds.specs.Laws.{lacks_if, symmetric_if};

use crate::kinds::BondKind;
use crate::shape::BookBond;
use book::Book;
use flow::Relations;
use groups::Bond;
use std::marker::PhantomData;

impl<K: BondKind> BookBond<K> {
    // The bond of an open book.
    fn of_open(book: &Book) -> BookBond<K>
        requires { Opens book.now.steps (length (memory_of book.now)) }
        ensures { pairs_if K.pairs_by result.relations ≡ of_book book.now.steps (length (memory_of book.now)) (K.pairs (held_by book.now)) }
    {
        BookBond {
            relations: Some(Relations::of(book)),
            kind: PhantomData,
        }
    }

    // The bond of a void book.
    fn of_void(book: &Book) -> BookBond<K>
        requires { Opens book.now.steps (length (memory_of book.now)) → ⊥ }
        ensures { pairs_if K.pairs_by result.relations ≡ of_book book.now.steps (length (memory_of book.now)) (K.pairs (held_by book.now)) }
    {
        BookBond {
            relations: None,
            kind: PhantomData,
        }
    }

    // The bond of a book.
    #[tactic(auto, using(book::proofs::Voids::void_open))]
    pub fn of(book: &Book) -> BookBond<K>
        ensures { pairs_if K.pairs_by result.relations ≡ of_book book.now.steps (length (memory_of book.now)) (K.pairs (held_by book.now)) }
    {
        match book.open_or_void() {
            Ok(()) => BookBond::of_open(book),
            Err(_) => BookBond::of_void(book),
        }
    }
}

impl<K: BondKind> Bond for BookBond<K> {
    ghost points = { λ _. K.POINTS };

    ghost pairs = { λ b. pairs_if K.pairs_by b.relations };

    ghost few = { λ _. K.few };

    ghost symmetric = { λ b. symmetric_if K.pairs_by K.symmetric b.relations };

    ghost lacks = { λ b. lacks_if K.pairs_by K.POINTS K.lacks b.relations };

    fn size(&mut self) -> usize {
        K::POINTS
    }

    fn pair(&mut self, p: usize, q: usize) -> bool {
        self.relations
            .as_ref()
            .is_some_and(|relations| K::pair(relations, p, q))
    }
}
