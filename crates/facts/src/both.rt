use flow::Relations;

// The relations of two books.
#[derive(Drop)]
pub(crate) struct Both {
    pub(crate) one: Relations,
    pub(crate) other: Relations,
}
