use steps::Code;

// What a word says.
#[derive(Clone, Copy)]
pub enum Word {
    // an event
    Event(Code),
    // the head of a job, with the number of its events
    Head(u32),
    // an end word, with its low bits
    Stop(u32),
    Filler,
}
