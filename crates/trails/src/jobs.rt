// A job that was read: its length, and the place after it.
#[derive(Clone, Copy)]
pub struct Job {
    pub len: usize,
    pub after: usize,
}
