// The calls that are to fail, by their numbers.
ghost use Rattle.std.specs.Prelude.{◌≡◌, ◌+◌, ◌↔◌, IsTrue, Contains};
ghost use Rattle.gsm_outside.specs.Causes.{next_count};

/// Calls that are counted from 1, and the numbers of those that are to fail.
#[derive(Drop)]
pub struct Calls {
    failing: Vec<u64>,
    made: u64,
}

impl Calls {
    pub fn new(failing: Vec<u64>) -> Calls
        ensures { result ≡ record { failing = failing; made = 0 } }
    {
        Calls { failing, made: 0 }
    }

    /// Counts a call, and says whether it is to fail.
    pub fn fails_next(&mut self) -> bool
        ensures listed { IsTrue result ↔ Contains self.old.failing.items (self.old.made + 1) }
        ensures counted { self.new ≡ record self.old { made = next_count self.old.made } }
    {
        let fails = follows_listed(&self.failing, self.made);
        self.made = self.made.saturating_add(1);
        fails
    }
}

// The call after so many is listed. One past the last value of the count is on no list.
fn follows_listed(failing: &[u64], made: u64) -> bool
    ensures { IsTrue result ↔ Contains failing.now (made + 1) }
{
    match made.checked_add(1) {
        Some(call) => failing.contains(&call),
        None => false,
    }
}
