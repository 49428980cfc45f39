//! A count of steps that its holders can only raise, by one at a time.
#![tactic(auto)]

ghost use Rattle.std.specs.Prelude.{◌≡◌, ℕ, ◌+◌, ◌<◌, ◌^◌};

use std::marker::{Model, PhantomData};

/// A count of steps. `L` marks whose steps are counted, so that no count is passed for another.
pub struct Steps<L> {
    count: u64,
    whose: PhantomData<L>,
}

impl<L> Model for Steps<L> {
    ghost Value = { ℕ };

    ghost view = { λ steps. steps.count };
}

// By hand, so that a marker need not be `Drop`.
impl<L> Drop for Steps<L> {
    fn drop(self) {
        let Steps { count: _, whose: _ } = self;
    }
}

impl<L> Steps<L> {
    /// No steps.
    pub fn new() -> Steps<L>
        ensures { result ≡ 0 }
    {
        Steps {
            count: 0,
            whose: PhantomData,
        }
    }

    /// One step more.
    pub fn tick(&mut self)
        requires { self.old < 2 ^ 63 }
        ensures { self.new ≡ self.old + 1 }
    {
        self.count += 1;
    }

    /// How many steps there were.
    pub fn count(&self) -> u64
        ensures { result ≡ self.now }
    {
        self.count
    }
}

#[cfg(test)]
mod tests {
    use super::*;

    struct Fills;

    #[test]
    fn each_tick_counts_one(rt: HostRuntime) {
        let mut steps = Steps::<Fills>::new();
        assert_eq!(rt; steps.count(), 0);
        steps.tick();
        steps.tick();
        assert_eq!(rt; steps.count(), 2);
    }
}
