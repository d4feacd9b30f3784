use steps::Name;
use trails::TrailFault;

// What a token means for the line that is read.
#[derive(Clone, Copy)]
pub enum Verdict {
    // one name more
    Take(Name),
    // a name is due
    Gap,
    // the line is whole
    Close,
    // the trail has come to its end
    Over,
    // the trail stops at a fault
    Wrong(TrailFault),
}
