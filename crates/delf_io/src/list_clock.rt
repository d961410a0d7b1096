//! A clock in memory, which answers from a list.

ghost use Rattle.std.specs.Prelude.{◌≡◌};
ghost use Rattle.delf_io.specs.Faults.{next_count};
ghost use Rattle.delf_io.specs.Memory.{answer_at};

use crate::clock::{Clock, Moment};
use crate::numbers::Numbers;
use std::marker::Model;

/// A clock that answers from a list, in order, and its last number again at the end.
#[derive(Debug, Drop)]
pub struct ListClock {
    answers: Numbers,
    last: Moment,
    asked: u64,
}

impl Model for ListClock {
    ghost use Rattle.delf_io.specs.Memory.{ClockState};

    ghost Value = { ClockState };

    ghost view = { λ c. record { answers = c.answers; last = c.last; asked = c.asked } };
}

impl ListClock {
    /// A clock of these answers, which was not asked yet. With none it always answers 0.
    pub fn of(answers: Numbers) -> ListClock
        ensures { result ≡ record { answers = answers; last = 0; asked = 0 } }
    {
        ListClock {
            answers,
            last: 0,
            asked: 0,
        }
    }
}

impl Clock for ListClock {
    ghost last_answer = { λ c. c.last };

    ghost times_asked = { λ c. c.asked };

    fn now(&mut self) -> Moment
        ensures answer { result ≡ answer_at self.old.answers self.old.asked }
        ensures new { self.new ≡ record self.old { last = result; asked = next_count self.old.asked } }
    {
        let answers = self.answers.as_slice();
        let place = (self.asked as usize).min(answers.len().saturating_sub(1));
        self.last = answers.get(place).copied().unwrap_or(0);
        self.asked = self.asked.saturating_add(1);
        self.last
    }
}
