ghost use Rattle.std.specs.Prelude.{◌≡◌};
ghost use Rattle.book.specs.declared.faults.EnterFault.TheVariants.{Void as EnterVoid, Roster as EnterRoster, Room as EnterRoom};
ghost use Rattle.book.specs.declared.faults.FeedFault.TheVariants.{Void as FeedVoid, Roster as FeedRoster, Trail as FeedTrail, Room as FeedRoom};
ghost use Rattle.book.specs.Faults.{void_refusal, enter_refusal, feed_refusal, feed_stop, at_job};

use refusals::Refusal;
use steps::RosterFault;
use trails::{TrailFault, TrailStop};

// Why a book is void.
#[derive(Clone, Copy, PartialEq, Eq, Debug)]
pub enum Void {
    // opened for other than 1 to 32 steps
    Steps,
    // opened in memory that is not of 2 to 16,384 words
    Memory,
}

// A new job has more words than are unused.
#[derive(Clone, Copy, PartialEq, Eq, Debug)]
pub struct NoRoom;

// Why an entry is declined.
#[derive(Clone, Copy, PartialEq, Eq, Debug)]
pub enum EnterFault {
    Void(Void),
    Roster(RosterFault),
    // the job is not of 1 to 1,000 events
    Events,
    Room,
}

// Why a feed is declined, with the number of jobs that it accepted first.
#[derive(Clone, Copy, PartialEq, Eq, Debug)]
pub enum FeedFault {
    Void(Void),
    Roster { fault: RosterFault, job: u64 },
    // the work memory is under 1,000 steps
    ShortWork,
    Trail { fault: TrailFault, job: u64 },
    Room { job: u64 },
}

impl From<Void> for EnterFault {
    ghost from_gives = { λ v r. r ≡ EnterVoid v };

    fn from(void: Void) -> EnterFault {
        EnterFault::Void(void)
    }
}

impl From<RosterFault> for EnterFault {
    ghost from_gives = { λ f r. r ≡ EnterRoster f };

    fn from(fault: RosterFault) -> EnterFault {
        EnterFault::Roster(fault)
    }
}

impl From<NoRoom> for EnterFault {
    ghost from_gives = { λ _ r. r ≡ EnterRoom };

    fn from(_full: NoRoom) -> EnterFault {
        EnterFault::Room
    }
}

impl From<Void> for FeedFault {
    ghost from_gives = { λ v r. r ≡ FeedVoid v };

    fn from(void: Void) -> FeedFault {
        FeedFault::Void(void)
    }
}

impl From<RosterFault> for FeedFault {
    ghost from_gives = { λ f r. r ≡ FeedRoster f 0 };

    fn from(fault: RosterFault) -> FeedFault {
        FeedFault::Roster { fault, job: 0 }
    }
}

impl From<TrailFault> for FeedFault {
    ghost from_gives = { λ f r. r ≡ FeedTrail f 0 };

    fn from(fault: TrailFault) -> FeedFault {
        FeedFault::Trail { fault, job: 0 }
    }
}

impl From<NoRoom> for FeedFault {
    ghost from_gives = { λ _ r. r ≡ FeedRoom 0 };

    fn from(_full: NoRoom) -> FeedFault {
        FeedFault::Room { job: 0 }
    }
}

impl From<TrailStop> for FeedFault {
    ghost from_gives = { λ s r. r ≡ feed_stop s };

    fn from(stop: TrailStop) -> FeedFault {
        match stop {
            TrailStop::ShortWork => FeedFault::ShortWork,
            TrailStop::Fault(fault) => FeedFault::from(fault),
        }
    }
}

impl FeedFault {
    // The same fault after so many jobs.
    pub fn at_job(self, job: u64) -> FeedFault
        ensures { result ≡ at_job self job }
    {
        match self {
            FeedFault::Void(void) => FeedFault::Void(void),
            FeedFault::Roster { fault, .. } => FeedFault::Roster { fault, job },
            FeedFault::ShortWork => FeedFault::ShortWork,
            FeedFault::Trail { fault, .. } => FeedFault::Trail { fault, job },
            FeedFault::Room { .. } => FeedFault::Room { job },
        }
    }
}

// The five numbers of each refusal.
impl From<Void> for Refusal {
    ghost from_gives = { λ v r. r ≡ void_refusal v };

    fn from(void: Void) -> Refusal {
        match void {
            Void::Steps => Refusal::new(1, 3),
            Void::Memory => Refusal::new(2, 3),
        }
    }
}

impl From<EnterFault> for Refusal {
    ghost from_gives = { λ f r. r ≡ enter_refusal f };

    fn from(fault: EnterFault) -> Refusal {
        match fault {
            EnterFault::Void(void) => Refusal::from(void),
            EnterFault::Roster(fault) => Refusal::from(fault),
            EnterFault::Events => Refusal::new(4, 3),
            EnterFault::Room => Refusal::new(6, 3),
        }
    }
}

impl From<FeedFault> for Refusal {
    ghost from_gives = { λ f r. r ≡ feed_refusal f };

    fn from(fault: FeedFault) -> Refusal {
        match fault {
            FeedFault::Void(void) => Refusal::from(void),
            FeedFault::Roster { fault, job } => Refusal::from(fault).at_job(job),
            FeedFault::ShortWork => Refusal::new(7, 3),
            FeedFault::Trail { fault, job } => Refusal::from(fault).at_job(job),
            FeedFault::Room { job } => Refusal::new(6, 3).at_job(job),
        }
    }
}
