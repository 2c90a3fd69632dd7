//! Bodies, each with what it calls and how it ends. What is expected was worked out by hand.
use crate::running::told;
use std::test::Fail;

/// How many times a body runs, which call fails, the body, and what is told of it.
struct Case {
    name: &'static str,
    times: u32,
    failing: u64,
    body: &'static [i64],
    told: &'static [i64],
}

static CASES: [Case; 28] = [
    Case {
        name: "a local starts at 0",
        times: 1,
        failing: 0,
        body: &[2, 0, 0, -100, 100, 0, 2, 0, 1, 1, 0],
        told: &[0, 0, 0, 0, 5],
    },
    Case {
        name: "a local gets an answer",
        times: 1,
        failing: 0,
        body: &[2, 0, 0, -100, 100, 1, 1, 0, 1, 0, 3, 2, 0, 1, 1, 0],
        told: &[0, 0, 0, 3, 5, 0, 5, 5],
    },
    Case {
        name: "an assignment, and a field",
        times: 1,
        failing: 0,
        body: &[
            3, 0, 0, -100, 100, 1, 0, 0, 2, 1, 0, 0, 6, 1, 0, 0, 4, 2, 0, 1, 4, 1, 0, 3, 0,
        ],
        told: &[0, 0, 0, 14, 5],
    },
    Case {
        name: "a condition that fails",
        times: 1,
        failing: 0,
        body: &[1, 3, 0, 0, 1, 2, 0, 1, 0, 1, 1, 2, 0, 1, 0, 2],
        told: &[0, 0, 0, 2, 5],
    },
    Case {
        name: "a condition that holds",
        times: 1,
        failing: 0,
        body: &[1, 3, 0, 7, 1, 2, 0, 1, 0, 1, 1, 2, 0, 1, 0, 2],
        told: &[0, 0, 0, 1, 5],
    },
    Case {
        name: "turns in turns",
        times: 1,
        failing: 0,
        body: &[1, 4, 0, 2, 1, 4, 0, 2, 1, 2, 0, 1, 4, 6, 2, 0, 0, 10, 2, 1],
        told: &[0, 0, 0, 0, 5, 0, 1, 5, 0, 10, 5, 0, 11, 5],
    },
    Case {
        name: "a local that is declared again",
        times: 1,
        failing: 0,
        body: &[
            1, 4, 0, 2, 3, 0, 0, -100, 100, 0, 2, 0, 1, 1, 0, 1, 0, 0, 0, 5,
        ],
        told: &[0, 0, 0, 0, 5, 0, 0, 5],
    },
    Case {
        name: "1,000 counts",
        times: 1,
        failing: 0,
        body: &[1, 4, 0, 999, 0],
        told: &[0, 0],
    },
    Case {
        name: "1,001 counts",
        times: 1,
        failing: 0,
        body: &[1, 4, 0, 1000, 0],
        told: &[2, 3],
    },
    Case {
        name: "a value outside its local",
        times: 1,
        failing: 0,
        body: &[1, 0, 0, 0, 1, 1, 0, 0, 2],
        told: &[2, 2],
    },
    Case {
        name: "a negative count",
        times: 1,
        failing: 0,
        body: &[1, 4, 5, 0, 0, 0, 1, 0],
        told: &[2, 1],
    },
    Case {
        name: "the first argument's range comes first",
        times: 1,
        failing: 0,
        body: &[1, 2, 2, 2, 0, 2, 7, 0, 1, 0, 0],
        told: &[2, 2],
    },
    Case {
        name: "the second argument has no value",
        times: 1,
        failing: 0,
        body: &[1, 2, 2, 2, 0, 1, 7, 0, 1, 0, 0],
        told: &[2, 1],
    },
    Case {
        name: "the first argument has no value",
        times: 1,
        failing: 0,
        body: &[1, 2, 2, 2, 7, 0, 1, 0, 0, 0, 2147483648],
        told: &[2, 1],
    },
    Case {
        name: "an answer outside its function",
        times: 1,
        failing: 0,
        body: &[1, 2, 3, 0],
        told: &[2, 2, 3, 2],
    },
    Case {
        name: "an answer outside its local",
        times: 1,
        failing: 0,
        body: &[1, 0, 0, 0, 1, 1, 1, 0, 1, 0, 1],
        told: &[2, 2, 0, 1, 5],
    },
    Case {
        name: "a part that isn't needed",
        times: 1,
        failing: 0,
        body: &[1, 2, 0, 1, 8, 0, 0, 7, 0, 1, 0, 0],
        told: &[0, 0, 0, 0, 5],
    },
    Case {
        name: "an answer that is dropped",
        times: 1,
        failing: 0,
        body: &[1, 2, 1, 1, 0, 1],
        told: &[0, 0, 1, 1, 7],
    },
    Case {
        name: "a fault at the first call",
        times: 1,
        failing: 1,
        body: &[3, 2, 0, 1, 0, 1, 2, 0, 1, 0, 2, 2, 0, 1, 0, 3],
        told: &[1, 1],
    },
    Case {
        name: "a fault at the second call",
        times: 1,
        failing: 2,
        body: &[3, 2, 0, 1, 0, 1, 2, 0, 1, 0, 2, 2, 0, 1, 0, 3],
        told: &[1, 2, 0, 1, 5],
    },
    Case {
        name: "a fault at the last call",
        times: 1,
        failing: 3,
        body: &[3, 2, 0, 1, 0, 1, 2, 0, 1, 0, 2, 2, 0, 1, 0, 3],
        told: &[1, 3, 0, 1, 5, 0, 2, 5],
    },
    Case {
        name: "a fault behind the last call",
        times: 1,
        failing: 4,
        body: &[3, 2, 0, 1, 0, 1, 2, 0, 1, 0, 2, 2, 0, 1, 0, 3],
        told: &[0, 0, 0, 1, 5, 0, 2, 5, 0, 3, 5],
    },
    Case {
        name: "the count comes before the expression",
        times: 1,
        failing: 0,
        body: &[2, 4, 0, 999, 0, 0, 0, -1, 1, 1, 0, 7, 0, 1, 0, 0],
        told: &[2, 3],
    },
    Case {
        name: "counts of turns in turns",
        times: 1,
        failing: 0,
        body: &[2, 4, 0, 2, 1, 4, 0, 497, 0, 0, 0, -1, 1, 0],
        told: &[0, 0],
    },
    Case {
        name: "one count more",
        times: 1,
        failing: 0,
        body: &[3, 4, 0, 2, 1, 4, 0, 497, 0, 0, 0, -1, 1, 0, 0, 1, -1, 1, 0],
        told: &[2, 3],
    },
    Case {
        name: "an assignment outside its local",
        times: 1,
        failing: 0,
        body: &[2, 0, 0, 0, 1, 0, 1, 0, 0, 0, 2],
        told: &[2, 2],
    },
    Case {
        name: "calls stand behind those before",
        times: 2,
        failing: 0,
        body: &[1, 2, 0, 1, 0, 1],
        told: &[0, 0, 0, 1, 5, 0, 1, 5],
    },
    Case {
        name: "a body's calls are counted from 1",
        times: 2,
        failing: 2,
        body: &[1, 2, 0, 1, 0, 1],
        told: &[1, 1, 0, 1, 5],
    },
];

#[test]
fn bodies_run_as_worked_out(rt: HostRuntime) -> Result<(), Fail> {
    for case in &CASES {
        let found = told(rt.alloc(), case.times, case.failing, case.body)?;
        let same = found.is_some_and(|found| found.as_slice() == case.told);
        assert!(rt; same, "{}", case.name);
    }
    Ok(())
}

#[test]
fn unsound_bodies_do_not_run(rt: HostRuntime) -> Result<(), Fail> {
    assert!(rt; told(rt.alloc(), 1, 0, &[1, 2, 4, 0])?.is_none());
    Ok(())
}
