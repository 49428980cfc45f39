// The printed numbers of the rules on files, and the limits of their fields, as docs/REFUSALS.md tells them.
use crate::limits::*;
use crate::rules::*;

#[test]
fn each_rule_on_files_has_its_number(rt: HostRuntime) {
    let records = [
        NOT_TEXT,
        HEADER,
        FIELD_COUNT,
        NAME,
        NUMBER,
        RANGE,
        TOO_MANY,
        NO_STAGES,
        TWICE,
        LIMITS,
        PAST_HORIZON,
        TABLE_NAME,
    ];
    let others = [
        SUPPLIER,
        CUSTOMER,
        SELF_ARC,
        ARC_TWICE,
        BOUND,
        PLAN_STAGE,
        PLAN_MISSING,
        CYCLE,
        NO_TABLE,
        NO_CUSTOMERS,
        TOO_LARGE,
        BUDGET,
    ];
    let numbered = records == [1, 2, 3, 4, 5, 6, 7, 8, 9, 10, 11, 12]
        && others == [13, 14, 15, 16, 17, 18, 19, 20, 21, 22, 23, 24];
    assert!(rt; numbered);
}

#[test]
fn the_limits_of_fields_are_those_of_the_documents(rt: HostRuntime) {
    let sizes = [MAX_NAME, MAX_TABLES, MAX_ENTRIES];
    let numbers = [MAX_EXCESS, MAX_UNIT, MAX_QUANTITY, MAX_FACTOR];
    let kept = sizes == [64, 1_000, 1_001]
        && numbers == [1_000_000_000, 1_000_000, 1_000, 1_000_000_000];
    assert!(rt; kept);
}
