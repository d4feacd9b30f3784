use flow::Relations;
use std::marker::PhantomData;

// The bond of a kind of a book: its relations, or none where the book is void. The bond of a void book has no pairs.
#[derive(Drop)]
pub struct BookBond<K> {
    pub(crate) relations: Option<Relations>,
    pub(crate) kind: PhantomData<K>,
}
