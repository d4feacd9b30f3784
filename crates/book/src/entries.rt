// What became of a job that is accepted: its number among the jobs held, and whether it is new.
#[derive(Clone, Copy, PartialEq, Eq, Debug)]
pub enum Entry {
    New { number: usize },
    Held { number: usize },
}
