//! The clock of the system.

ghost use Rattle.std.specs.Prelude.{◌≡◌, ◌/◌, IfOk, OnErr};
ghost use Rattle.std.specs.Duration.{as_nanos};

use crate::clock::{Clock, Moment};
use std::io;
use std::time::{self, Duration};

/// The system's clock. Where it cannot be read, or stands before 1970, it answers what it answered
/// last, and 0 at first.
#[derive(Drop)]
pub struct SystemClock<'a, R: time::Clock> {
    rt: &'a R,
    last: Moment,
    asked: u64,
}

impl<'a, R: time::Clock> SystemClock<'a, R> {
    /// The clock of `rt`, which was not asked yet.
    pub fn of(rt: &'a R) -> SystemClock<'a, R>
        ensures { ⟦<SystemClock<'a, R> as Clock>⟧.times_asked result ≡ 0 }
    {
        SystemClock {
            rt,
            last: 0,
            asked: 0,
        }
    }
}

// The answer to a reading: its whole seconds, or the last answer again where there was none.
fn answer_to(reading: io::Result<Duration>, last: Moment) -> Moment
    ensures read { IfOk reading (λ time. result ≡ as_nanos time / 1_000_000_000) }
    ensures unread { OnErr reading (result ≡ last) }
{
    match reading {
        Ok(time) => time.as_secs(),
        Err(_) => last,
    }
}

impl<R: time::Clock> Clock for SystemClock<'_, R> {
    ghost last_answer = { λ c. c.last };

    ghost times_asked = { λ c. c.asked };

    fn now(&mut self) -> Moment {
        self.last = answer_to(self.rt.since_1970(), self.last);
        self.asked = self.asked.saturating_add(1);
        self.last
    }
}
