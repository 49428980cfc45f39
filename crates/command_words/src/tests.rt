use super::*;
use crate::word_rules::*;
use std::alloc::Global;
use std::test::Fail;

fn words_of(alloc: Global, all: &[&str]) -> Result<Words, Fail> {
    let mut words = Words::new(alloc);
    for word in all {
        words.push(word)?;
    }
    Ok(words)
}

// Words, the first rule that fails on them, and the number of the word at fault.
const CASES: [(&[&str], u8, u64); 19] = [
    (&[], NO_WORD, 0),
    (&["--help"], NO_COMMAND, 1),
    (&["solve", "stages=s"], MISSING_KEY, 2),
    (&["solve", "horizon=5", "arcs=a"], MISSING_KEY, 1),
    (&["solve", "stages=s", "stages=t"], KEY_TWICE, 3),
    (&["solve", "stages"], NO_EQUALS, 2),
    (&["solve", "stages=s", "script=c"], UNKNOWN_KEY, 3),
    (
        &[
            "solve",
            "cert=t",
            "stages=s",
            "tables=t",
            "arcs=a",
            "horizon=2",
        ],
        NAME_REUSED,
        0,
    ),
    (&["solve", "=s"], UNKNOWN_KEY, 2),
    (&["solve", "stages="], BAD_VALUE, 2),
    (
        &["solve", "stages=s", "tables=t", "arcs=a", "horizon=auto"],
        BAD_VALUE,
        5,
    ),
    (&["solve", "plan=p"], UNKNOWN_KEY, 2),
    (
        &["audit", "stages=s", "tables=t", "arcs=a", "horizon=2"],
        MISSING_KEY,
        5,
    ),
    (
        &["check", "stages=s", "tables=t", "arcs=a", "horizon=2"],
        MISSING_KEY,
        5,
    ),
    (&["solve", "horizon=401"], BAD_VALUE, 2),
    (&["solve", "horizon=5.0"], BAD_VALUE, 2),
    (&["solve", "ranges=0"], BAD_VALUE, 2),
    (&["solve", "ranges=10001"], BAD_VALUE, 2),
    (&["audit", "ranges=5"], UNKNOWN_KEY, 2),
];

#[test]
fn each_rule_on_words_has_its_number(rt: HostRuntime) -> Result<(), Fail> {
    let rules = [
        NO_WORD,
        NO_COMMAND,
        NO_EQUALS,
        UNKNOWN_KEY,
        KEY_TWICE,
        MISSING_KEY,
        BAD_VALUE,
        NAME_REUSED,
    ];
    assert_eq!(rt; rules, [1, 2, 3, 4, 5, 6, 7, 8]);
    Ok(())
}

#[test]
fn each_rule_on_words_has_its_place(rt: HostRuntime) -> Result<(), Fail> {
    let alloc = rt.alloc();
    for (all, rule, place) in CASES {
        let words = words_of(alloc, all)?;
        assert_eq!(rt; request_of(&words).err(), Some(WordFault { rule, place }));
    }
    Ok(())
}

// Words of the commands that were not among the cases above, the first rule that fails on them, and the number of the word at fault.
const TRIAL_CASES: [(&[&str], u8, u64); 8] = [
    (&["trial", "seed=1", "stages=1001"], BAD_VALUE, 3),
    (&["trial", "stages=0"], BAD_VALUE, 2),
    (&["trial", "extra=4001"], BAD_VALUE, 2),
    (&["trial", "seed=1000000000000000001"], BAD_VALUE, 2),
    (&["trial", "seed=1", "horizon=5"], MISSING_KEY, 2),
    (&["trial", "seed=1", "cert=c"], UNKNOWN_KEY, 3),
    (&["clusters", "ranges=5"], UNKNOWN_KEY, 2),
    (
        &["explain", "stages=s", "tables=t", "arcs=a", "horizon=2"],
        MISSING_KEY,
        5,
    ),
];

#[test]
fn a_trial_has_keys_of_its_own(rt: HostRuntime) -> Result<(), Fail> {
    let alloc = rt.alloc();
    for (all, rule, place) in TRIAL_CASES {
        let words = words_of(alloc, all)?;
        assert_eq!(rt; request_of(&words).err(), Some(WordFault { rule, place }));
    }
    Ok(())
}

#[test]
fn a_trial_asks_for_numbers_and_names_no_file(rt: HostRuntime) -> Result<(), Fail> {
    let alloc = rt.alloc();
    let words = words_of(
        alloc,
        &[
            "trial",
            "horizon=40",
            "extra=4000",
            "stages=1000",
            "seed=1000000000000000000",
        ],
    )?;
    let Ok(request) = request_of(&words) else {
        return Err("a rule on the words fails".into());
    };
    let numbers = TrialNumbers {
        seed: 1_000_000_000_000_000_000,
        stages: 1_000,
        extra: 4_000,
    };
    assert_eq!(rt; request.trial, Some(numbers));
    assert_eq!(rt;
        [request.stages, request.tables, request.arcs],
        ["", "", ""]
    );
    let others = (request.command, request.horizon, request.ranges);
    assert_eq!(rt; others, (Command::Trial, 40, None));
    Ok(())
}

// Words behind those that each session has, the first rule that fails on them all, if one does, and the number of the word at fault.
const SESSION_CASES: [(&[&str], Option<(u8, u64)>); 9] = [
    (&[], Some((MISSING_KEY, 5))),
    (&["script"], Some((NO_EQUALS, 6))),
    (&["script=e", "plan=p"], Some((UNKNOWN_KEY, 7))),
    (&["script=e", "script=f"], Some((KEY_TWICE, 7))),
    (&["script="], Some((BAD_VALUE, 6))),
    (&["script=c-1", "cert=c"], Some((NAME_REUSED, 0))),
    (&["cert=c", "script=c-notes"], Some((NAME_REUSED, 0))),
    (&["script=c", "cert=c"], None),
    (&["script=e", "cert=s"], None),
];

fn session_with(alloc: Global, further: &[&str]) -> Result<Words, Fail> {
    let mut words = words_of(
        alloc,
        &["session", "stages=s", "tables=t", "arcs=a", "horizon=2"],
    )?;
    for word in further {
        words.push(word)?;
    }
    Ok(words)
}

#[test]
fn a_session_writes_no_answer_over_a_file_that_it_reads(rt: HostRuntime) -> Result<(), Fail> {
    let alloc = rt.alloc();
    for (further, fault) in SESSION_CASES {
        let words = session_with(alloc, further)?;
        let told = fault.map(|(rule, place)| WordFault { rule, place });
        assert_eq!(rt; request_of(&words).err(), told);
    }
    Ok(())
}

#[test]
fn a_session_numbers_its_answers(rt: HostRuntime) -> Result<(), Fail> {
    let alloc = rt.alloc();
    let words = session_with(alloc, &["cert=c", "script=e", "ranges=7"])?;
    let Ok(request) = request_of(&words) else {
        return Err("a rule on the words fails".into());
    };
    let asked = (request.command, request.further, request.cert);
    assert_eq!(rt; asked, (Command::Session, "e", Some("c")));
    assert_eq!(rt; request.ranges, Some(7));
    assert_eq!(rt; further_file(request.command), Some(FileWord::Script));
    let file = answer_name(alloc, naming(request.command), "c", 12)?;
    let whole = answer_name(alloc, naming(Command::Solve), "c", 1)?;
    assert_eq!(rt; (file.as_str(), whole.as_str()), ("c-12", "c"));
    Ok(())
}

#[test]
fn keys_come_in_any_order_and_names_may_have_equals_signs(rt: HostRuntime) -> Result<(), Fail> {
    let alloc = rt.alloc();
    let words = words_of(
        alloc,
        &[
            "solve",
            "horizon= 010 ",
            "arcs=a",
            "ranges=7",
            "stages=s=1",
            "cert=c",
            "tables=t",
        ],
    )?;
    let Ok(request) = request_of(&words) else {
        return Err("a rule on the words fails".into());
    };
    let files = [
        request.stages,
        request.tables,
        request.arcs,
        request.further,
    ];
    assert_eq!(rt; files, ["s=1", "t", "a", ""]);
    let others = (request.command, request.horizon, request.ranges);
    assert_eq!(rt; others, (Command::Solve, 10, Some(7)));
    assert_eq!(rt; (request.cert, cert_name(&words)), (Some("c"), Some("c")));
    assert_eq!(rt; further_file(request.command), None);
    Ok(())
}
