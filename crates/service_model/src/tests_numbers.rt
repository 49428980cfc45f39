// The printed numbers of the rules, and the limits, as docs/REFUSALS.md and docs/CERTIFICATES.md tell them.
use crate::breaks::*;
use crate::limits::*;
use crate::{cert_rules as rules, faults};

#[test]
fn each_rule_on_plans_and_networks_has_its_number(rt: HostRuntime) {
    let plans = [
        BEFORE_SUPPLY,
        PAST_HORIZON,
        BELOW_LEAST,
        ABOVE_MOST,
        NEGATIVE_TIME,
        NOT_ALLOWED,
        NOT_WAITED,
    ];
    let networks = [
        faults::LONG_HORIZON,
        faults::STAGE_COUNT,
        faults::STAGE_TIMES,
        faults::COST_LENGTH,
        faults::COST_ENTRY,
        faults::ARC_COUNT,
        faults::ARC_ENDS,
        faults::ARC_TWICE,
        faults::ON_CYCLE,
        faults::LONG_TRANSIT,
    ];
    let numbered = plans == [1, 2, 3, 4, 5, 6, 7] && networks == [1, 2, 3, 4, 5, 6, 7, 8, 9, 10];
    assert!(rt; numbered);
}

#[test]
fn each_rule_on_certificates_has_its_number(rt: HostRuntime) {
    let lines = [
        rules::LONG_LINE,
        rules::NOT_JSON,
        rules::SHAPE,
        rules::HEAD,
        rules::VERSION,
        rules::AFTER_END,
        rules::PLACE,
        rules::NO_END,
    ];
    let tables = [
        rules::NETWORK,
        rules::TABLE,
        rules::CHILD,
        rules::CHILD_ARC,
        rules::LOCAL,
    ];
    let nodes = [
        rules::BUDGET,
        rules::ROOT,
        rules::FITS,
        rules::STAGE_TWICE,
        rules::RELAXED,
    ];
    let ends = [
        rules::SPLIT_NODE,
        rules::SPLIT_LATE,
        rules::SPLIT_PLAN,
        rules::SPLIT_ARC,
        rules::VERDICT,
        rules::PLAN,
    ];
    let numbered = lines == [1, 2, 3, 4, 5, 6, 7, 8]
        && tables == [9, 10, 11, 12, 13]
        && nodes == [14, 15, 16, 17, 18]
        && ends == [19, 20, 21, 22, 23, 24];
    assert!(rt; numbered);
}

#[test]
fn the_limits_are_those_of_the_documents(rt: HostRuntime) {
    let counts = [MAX_STAGES, MAX_ARCS, MAX_BEYOND];
    let times = [MAX_HORIZON, MAX_TIME];
    let costs = [INF, MAX_PLAN_COST];
    let numbers = [rules::MAX_NUMBER, rules::MAX_BUDGET];
    let kept = counts == [1_000, 5_000, 1_001]
        && times == [400, 1_000]
        && costs == [4_611_686_018_427_387_904, 4_000_000_000_000_000_000]
        && numbers == [4_294_967_295, 10_000];
    assert!(rt; kept);
}
