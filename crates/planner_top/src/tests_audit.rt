use super::*;
use crate::tests::{run_once, words_of};
use gsm_outside::{SureShelf, SureSink};
use std::alloc::Global;
use std::test::Fail;

const STAGES: &str =
    "stage,lead,supply,least,most,bound,unit\nA,2,,,,a,1\nB,0,,,,b,1\nC,0,,,,c,1\nD,0,,,0,d,1\n";

const TABLES: &str = "table,x\na,0,3,7\nb,0,6,6\nc,0,1,1\nd,0,8,8\n";

const ARCS: &str = "supplier,customer,quantity\nA,B,1\nA,C,1\nB,D,1\nC,D,1\n";

// Audits a plan of the diamond, into the sink.
fn audit_over(alloc: Global, plan: &str, out: &mut SureSink) -> Result<Status, Fail> {
    let words = words_of(
        alloc,
        &[
            "audit",
            "plan=p",
            "stages=s",
            "tables=t",
            "arcs=a",
            "horizon=2",
        ],
    )?;
    let mut shelf = SureShelf::new(alloc);
    shelf.with_file("s", STAGES.as_bytes())?;
    shelf.with_file("t", TABLES.as_bytes())?;
    shelf.with_file("a", ARCS.as_bytes())?;
    shelf.with_file("p", plan.as_bytes())?;
    Ok(run_once(alloc, &words, &mut shelf, out))
}

// Plans of the diamond, with the status and what is printed.
struct Audited<'a> {
    plan: &'a str,
    status: Status,
    text: &'a str,
}

const PLANS: [Audited<'static>; 7] = [
    Audited {
        plan: "A,0,2\nB,2,0\nC,2,0\nD,0,0\n",
        status: Status::Done,
        text: "feasible,7\nstage,inbound,outbound,time,stock,cost\nA,0,2,0,0,0\nB,2,0,2,6,6\nC,2,0,2,1,1\nD,0,0,0,0,0\n",
    },
    Audited {
        plan: "A,0,2\nB,2,0\nC,2,2\nD,0,0\n",
        status: Status::NotFeasible,
        text: "broken,B7,C,D\n",
    },
    Audited {
        plan: "D,0,1\nC,2,2\nB,3,0\nA,0,2\n",
        status: Status::NotFeasible,
        text: "broken,B2,B\n",
    },
    Audited {
        plan: "D,0,0\nC,2,0\nB,2,0\nZ,0,0\n",
        status: Status::Refused,
        text: "refused,F18,plan,5,1\n",
    },
    Audited {
        plan: "A,0,2\nA,0,2\n",
        status: Status::Refused,
        text: "refused,F18,plan,3,1\n",
    },
    Audited {
        plan: "A,0,2\nB,2,0\nC,2,0\n",
        status: Status::Refused,
        text: "refused,F19,plan,0,0\n",
    },
    Audited {
        plan: "A,0\n",
        status: Status::Refused,
        text: "refused,F3,plan,2,0\n",
    },
];

#[test]
fn a_plan_of_the_diamond_is_audited(rt: HostRuntime) -> Result<(), Fail> {
    let alloc = rt.alloc();
    for case in &PLANS {
        let file = format!(in alloc; "stage,inbound,outbound\n{}", case.plan)?;
        let mut out = SureSink::new(alloc);
        let status = audit_over(alloc, file.as_str(), &mut out)?;
        let got = (status, out.written());
        assert_eq!(rt; got, (case.status, case.text.as_bytes()));
    }
    Ok(())
}
