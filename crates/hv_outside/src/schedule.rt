//! Which calls fail, and counts that stand still at the end of their type.
ghost use Rattle.std.specs.Prelude.{◌≡◌, ◌<◌, ◌+◌, ◌-◌, ◌^◌, min};
ghost use Rattle.hv_outside.specs.Schedule.{Schedule as PublicSchedule, beginning, after_call, fails_next};

use hv_base::List;
use std::marker::Model;

/// The count after one more event. It stands still at the last value of its type.
pub fn raised(count: u64) -> u64
    ensures { result ≡ min (count + 1) (2 ^ 64 - 1) }
{
    count.saturating_add(1)
}

/// The most bytes that one call takes, which are some.
#[derive(Clone, Copy)]
pub struct Most {
    pub bytes: usize,
    ghost takes_some: { 0 < bytes },
}

/// Which calls are to fail, and how many calls there were.
#[derive(Drop)]
pub struct Schedule {
    fails: List<u64>,
    calls: u64,
}

impl Model for Schedule {
    ghost Value = { PublicSchedule };

    ghost view = { λ schedule. record { fails = schedule.fails; calls = schedule.calls } };
}

impl Schedule {
    /// The calls of these numbers are to fail, counted from 1.
    pub fn new(fails: List<u64>) -> Schedule
        ensures { result ≡ beginning fails }
    {
        Schedule { fails, calls: 0 }
    }

    /// Counts a call, and tells whether it is to fail.
    pub fn begin(&mut self) -> bool
        ensures counted { self.new ≡ after_call self.old }
        ensures due { result ≡ fails_next self.old }
    {
        self.calls = raised(self.calls);
        self.fails.as_slice().contains(&self.calls)
    }
}
