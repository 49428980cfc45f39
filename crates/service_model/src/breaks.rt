// The rules on plans.
ghost use Rattle.std.specs.Prelude.{◌≡◌, length, IfSome, IfNone};
ghost use Rattle.service_model.specs.Search.{first_of, first_below};
ghost use Rattle.service_model.specs.Breaks.{stage_rules};

use crate::{INF, Network, Plan, Stage};

/// The first rule that a plan breaks, by its number, and the number of the stage (rules 1 to 6) or arc (rule 7).
#[derive(Clone, Copy, Debug, PartialEq, Eq)]
pub struct Break {
    pub rule: u8,
    pub place: u32,
}

/// B1: the inbound time is below the supply time.
pub const BEFORE_SUPPLY: u8 = 1;
/// B2: the inbound time is past the horizon.
pub const PAST_HORIZON: u8 = 2;
/// B3: the outbound time is below the least that the stage may quote.
pub const BELOW_LEAST: u8 = 3;
/// B4: the outbound time is above the greatest that the stage may quote.
pub const ABOVE_MOST: u8 = 4;
/// B5: the net replenishment time is negative.
pub const NEGATIVE_TIME: u8 = 5;
/// B6: the net replenishment time is not allowed.
pub const NOT_ALLOWED: u8 = 6;
/// B7: the customer does not wait for the supplier's outbound time and the transit.
pub const NOT_WAITED: u8 = 7;

impl Network {
    ghost use Rattle.service_model.specs.Plans.{HasTimes, Feasible};
    ghost use Rattle.service_model.specs.Breaks.{first_break_of, stage_break, arc_break};

    /// The first rule that the plan breaks: stage by stage, and then arc by arc.
    pub fn first_break(&self, plan: &Plan) -> Option<Break>
        requires { HasTimes self.now plan.now }
        ensures value { result ≡ first_break_of self.now plan.now }
        ensures none { IfNone result (Feasible self.now plan.now) }
        ensures some { IfSome result (λ b. ¬ Feasible self.now plan.now) }
    {
        self.broken_at_stage(plan)
            .or_else(|| self.broken_at_arc(plan))
    }

    fn broken_at_stage(&self, plan: &Plan) -> Option<Break>
        requires { HasTimes self.now plan.now }
        ensures { result ≡ first_below (stage_break self.now plan.now) (length self.now.stages) }
    {
        'stages: for j in 0..self.stages().len() {
            let stage = self.stages().get(j);
            let (inbound, outbound) = (*plan.inbound.get(j), *plan.outbound.get(j));
            if let Some(broken) = stage_break(self.horizon(), j as u32, stage, inbound, outbound) {
                return Some(broken);
            }
        }
        None
    }

    fn broken_at_arc(&self, plan: &Plan) -> Option<Break>
        requires { HasTimes self.now plan.now }
        ensures { result ≡ first_below (arc_break self.now plan.now) (length self.now.arcs) }
    {
        'arcs: for a in 0..self.arcs().len() {
            let arc = self.arcs().get(a);
            let outbound = *plan.outbound.get(arc.supplier as usize);
            let inbound = *plan.inbound.get(arc.customer as usize);
            let arrival = outbound as u32 + arc.transit as u32;
            if arrival > inbound as u32 {
                return Some(Break {
                    rule: NOT_WAITED,
                    place: a as u32,
                });
            }
        }
        None
    }
}

// The first of the rules on a stage's times that is broken.
fn stage_break(
    horizon: u16,
    place: u32,
    stage: &Stage,
    inbound: u16,
    outbound: u16,
) -> Option<Break>
    ensures { result ≡ first_of (stage_rules horizon place stage.now inbound outbound) }
{
    let rule = if inbound < stage.supply {
        BEFORE_SUPPLY
    } else if inbound > horizon {
        PAST_HORIZON
    } else if outbound < stage.least {
        BELOW_LEAST
    } else if outbound > stage.most {
        ABOVE_MOST
    } else if inbound as u32 + (stage.lead as u32) < outbound as u32 {
        NEGATIVE_TIME
    } else if stage.charge(inbound, outbound) >= INF {
        NOT_ALLOWED
    } else {
        return None;
    };
    Some(Break { rule, place })
}
