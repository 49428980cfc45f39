// The checker of certificates.
ghost use Rattle.std.specs.Prelude.{◌≡◌, ◌≤◌, ◌+◌, ◌-◌, ◌^◌, ◌↔◌, List, None, Some, min, IsNone, IfOk, IfSome, OnOk, OnErr, IsErrOf};
ghost use Rattle.service_model.specs.declared.cert.Item.{Item};

use crate::came::Came;
use crate::keep::keep;
use crate::rules::Rules;
use service_model::{Item, Network, NoMemory, Plan, TakeStop, Taker, Verdict};
use std::alloc::Global;
use std::marker::Model;

/// Takes the items of a certificate one after another, as long as no rule fails on one. From the first on which a rule
/// fails, it refuses all.
#[derive(Drop)]
pub struct Checker<'a> {
    alloc: Global,
    rules: Rules<'a>,
    came: Came,
    /// The plan that the repairs of the relaxed plans find so far.
    found: Option<Plan>,
    fault: Option<u8>,
    stops: u64,
}

impl<'a> Model for Checker<'a> {
    ghost use Rattle.cert_check.specs.Keeping.{IsChecking};
    ghost use Rattle.cert_check.specs.Checking.{Checking};

    ghost Value = { Checking };

    ghost view = { λ c. record { network = c.rules; held = c.came.held; fault = c.fault; stops = c.stops } };

    ghost invariant = { λ c. IsChecking c.rules c.came c.found c.fault c.stops };
}

impl<'a> Checker<'a> {
    ghost use Rattle.service_model.specs.Verdicts.{IsTrueOf};
    ghost use Rattle.service_model.specs.Held.{held_with};
    ghost use Rattle.service_model.specs.CertRules.{Keeps};
    ghost use Rattle.cert_check.specs.Checking.{new_checking, Takes};

    /// A checker to which nothing came.
    pub fn new(alloc: Global, network: &'a Network) -> Result<Checker<'a>, NoMemory>
        ensures { IfOk result (λ checker. checker ≡ new_checking network.now) }
    {
        let rules = Rules::new(alloc, network)?;
        Ok(Checker {
            alloc,
            rules,
            came: Came::new(alloc),
            found: None,
            fault: None,
            stops: 0,
        })
    }

    /// The first rule that failed, none where no take was refused.
    pub fn fault(&self) -> Option<u8>
        ensures value { result ≡ self.now.fault }
        ensures stops { IsNone result ↔ (self.now.stops ≡ 0) }
    {
        self.fault
    }

    /// The verdict, if an end came.
    pub fn verdict(self) -> Option<Verdict>
        ensures value { result ≡ self.entry.held.verdict }
        ensures is_true { IfSome result (IsTrueOf self.entry.network) }
    {
        self.came.into_verdict()
    }

    // Keeps an item on which no rule fails.
    fn keep(&mut self, item: &Item) -> Result<(), NoMemory>
        requires { Keeps self.old.network self.old.held item.now }
        ensures ok { OnOk result (self.new ≡ record self.old { held = held_with self.old.held item.now }) }
        ensures err { OnErr result (self.new ≡ self.old) }
    {
        keep(
            &self.rules,
            self.alloc,
            &mut self.came,
            &mut self.found,
            item,
        )
    }

    // Refuses a take by this rule.
    fn stop(&mut self, rule: u8) -> TakeStop
        ensures value { result ≡ TakeStop.Stopped }
        ensures stopped { self.new ≡ record self.old { fault = Some rule; stops = min (self.old.stops + 1) (2 ^ 64 - 1) } }
        ensures later { self.old.stops ≤ self.new.stops }
    {
        self.fault = Some(rule);
        self.stops = self.stops.saturating_add(1);
        TakeStop::Stopped
    }

    fn take_item(&mut self, item: &Item) -> Result<(), TakeStop>
        ensures takes { Takes self.old self.new item.now result }
        ensures unfailed { self.old.stops ≡ 0 → self.old.fault ≡ None }
        ensures later { self.old.stops ≤ self.new.stops }
    {
        if let Some(rule) = self.fault {
            return Err(self.stop(rule));
        }
        if let Some(rule) = self
            .rules
            .item_fault(self.alloc, &self.came, &self.found, item)?
        {
            return Err(self.stop(rule));
        }
        self.keep(item)?;
        Ok(())
    }
}

impl<'a> Taker<()> for Checker<'a> {
    ghost use Rattle.std.specs.Prelude.{◌≡◌, refl};
    ghost use Rattle.std.proofs.Common.{◌∙◌};
    ghost use Rattle.service_model.specs.Takers.{with_taken, CountsStops};
    ghost use Rattle.cert_check.specs.Checking.{StandsFor, Refuses, Takes};

    ghost stands_for = { λ checker world items. StandsFor checker items };

    ghost refuses = { λ checker world item. Refuses checker item };

    ghost keeps = { λ earlier before later after. later.network ≡ earlier.network };

    ghost stops = { λ checker. checker.stops };

    ghost keeps_itself = { λ checker world. refl };

    ghost keeps_on = { λ a u b v c w first second. second ∙ first };

    fn take(&mut self, _world: &mut (), item: &Item) -> Result<(), TakeStop>
        ensures stands { (items : List Item) → StandsFor self.old items → StandsFor self.new (with_taken result items item.now) }
        ensures keeps { self.new.network ≡ self.old.network }
        ensures stops { CountsStops self.old.stops self.new.stops result }
        ensures refuses { IsErrOf result TakeStop.Stopped → self.old.stops ≡ 0 → Refuses self.new item.now }

        // Refused by a rule is just what one fails on, or comes after such an item.
        ensures takes { Takes self.old self.new item.now result }
    {
        self.take_item(item)
    }
}
