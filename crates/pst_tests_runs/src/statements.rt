// Models with every statement of an activity and of a body.
use crate::machine::{machine, no_parts, traversal, value_of};
use pst_expr::{Expr, Span};
use pst_model::{Arm, BodyStep, Branch, Constraint, Join, Slot, Source, Step};
use pst_sound::sound;
use std::alloc::{AllocError, Global};
use std::test::Fail;

/// The one field of the plan, or the first one of the worker.
fn first_field(alloc: Global) -> Result<Constraint, AllocError> {
    value_of(alloc, Slot::Own { field: 0 })
}

fn two(alloc: Global) -> Result<Vec<Step>, AllocError> {
    Ok(vec![in alloc; traversal(alloc, 0, None), traversal(alloc, 1, None)]?)
}

fn boxed(alloc: Global, action: u32) -> Result<Box<Step>, AllocError> {
    Ok(Box::new(alloc, traversal(alloc, action, None))?)
}

/// A block of two branches that waits for as many as the form says.
fn joined(alloc: Global, parallel: bool, join: Join) -> Result<Step, AllocError> {
    Ok(Step::Joined {
        parallel,
        join,
        steps: two(alloc)?,
    })
}

fn choice(alloc: Global) -> Result<Step, AllocError> {
    Ok(Step::Select(vec![in alloc;
        Branch {
            guard: Some(first_field(alloc)?),
            weight: 1000,
            step: traversal(alloc, 0, None),
        },
        Branch {
            guard: None,
            weight: 1,
            step: traversal(alloc, 1, None),
        },
    ]?))
}

/// A conditional statement with both parts, and one with one part, in two repetitions.
fn conditions(alloc: Global) -> Result<Step, AllocError> {
    let one = Step::If {
        condition: value_of(alloc, Slot::Index { level: 1 })?,
        yes: boxed(alloc, 0)?,
        no: None,
    };
    let both = Step::If {
        condition: value_of(alloc, Slot::Index { level: 0 })?,
        yes: Box::new(alloc, one)?,
        no: Some(boxed(alloc, 1)?),
    };
    let inner = Step::Repeat {
        count: value_of(alloc, Slot::Index { level: 0 })?,
        body: Box::new(alloc, both)?,
    };
    Ok(Step::Repeat {
        count: first_field(alloc)?,
        body: Box::new(alloc, inner)?,
    })
}

fn by_value(alloc: Global) -> Result<Step, AllocError> {
    Ok(Step::Match {
        value: first_field(alloc)?,
        arms: vec![in alloc;
            Arm {
                spans: vec![in alloc; Span { low: 4, high: 7 }, Span { low: 0, high: 1 }]?,
                step: traversal(alloc, 0, None),
            },
            Arm {
                spans: vec![in alloc; Span { low: 2, high: 3 }]?,
                step: traversal(alloc, 1, None),
            },
        ]?,
        other: Some(boxed(alloc, 1)?),
    })
}

/// Every statement of an activity, the blocks with this form of join.
fn steps(alloc: Global, join: Join) -> Result<Vec<Step>, AllocError> {
    let mut steps = Vec::new(alloc);
    steps.push(Step::Sequence(two(alloc)?))?;
    steps.push(Step::Parallel(two(alloc)?))?;
    steps.push(Step::Schedule(two(alloc)?))?;
    steps.push(joined(alloc, true, join)?)?;
    steps.push(joined(alloc, false, join)?)?;
    steps.push(choice(alloc)?)?;
    steps.push(conditions(alloc)?)?;
    steps.push(by_value(alloc)?)?;
    Ok(steps)
}

fn with_steps(alloc: Global, steps: Vec<Step>) -> Result<bool, AllocError> {
    let mut parts = no_parts(alloc);
    parts.steps = steps;
    Ok(sound(&machine(alloc, parts)?))
}

// Of two branches, bits 0 and 1 stand for the branches that are waited for, and at most two can be chosen.
#[test]
fn activities_with_every_statement_are_sound(rt: HostRuntime) -> Result<(), Fail> {
    let cases = [
        (Join::Fixed { joined: 0 }, true),
        (Join::Fixed { joined: 3 }, true),
        (Join::Fixed { joined: 4 }, false),
        (Join::Choose { count: 0 }, true),
        (Join::Choose { count: 2 }, true),
        (Join::Choose { count: 3 }, false),
    ];
    for (k, (join, wanted)) in cases.into_iter().enumerate() {
        assert_eq!(rt;
            with_steps(rt.alloc(), steps(rt.alloc(), join)?)?,
            wanted,
            "form {k}"
        );
    }
    Ok(())
}

// A handle that constraints or binds name is traversed once, and not where it may be left out or come twice.
#[test]
fn bound_handles_are_traversed_once(rt: HostRuntime) -> Result<(), Fail> {
    let alloc = rt.alloc();
    assert!(rt; with_steps(alloc, vec![in alloc; traversal(alloc, 0, None)]?)?);
    assert!(rt;
        !with_steps(alloc, vec![in alloc; traversal(alloc, 0, Some(0))]?)?,
        "twice"
    );
    let repeated = Step::Repeat {
        count: first_field(alloc)?,
        body: Box::new(alloc, traversal(alloc, 0, Some(0)))?,
    };
    assert!(rt;
        !with_steps(alloc, vec![in alloc; repeated]?)?,
        "in a repetition"
    );
    Ok(())
}

/// A call of a function with arguments that are the worker's first field.
fn arguments(alloc: Global, count: usize) -> Result<Vec<Constraint>, AllocError> {
    let mut arguments = Vec::new(alloc);
    for _ in 0..count {
        arguments.push(first_field(alloc)?)?;
    }
    Ok(arguments)
}

fn local(number: u32, value: Option<Source>) -> BodyStep {
    BodyStep::Declare {
        local: number,
        range: Span { low: 0, high: 7 },
        value,
    }
}

fn assigned(alloc: Global, local: u32, slot: Slot) -> Result<BodyStep, AllocError> {
    Ok(BodyStep::Assign {
        local,
        value: Source::Value(value_of(alloc, slot)?),
    })
}

/// A conditional part in two repetitions, which assigns their turns to the local.
fn turns(alloc: Global, assigned_to: u32) -> Result<BodyStep, AllocError> {
    let condition = BodyStep::If {
        condition: value_of(alloc, Slot::Local { local: 0 })?,
        yes: vec![in alloc; assigned(alloc, assigned_to, Slot::Index { level: 0 })?]?,
        no: vec![in alloc; assigned(alloc, assigned_to, Slot::Index { level: 1 })?]?,
    };
    let inner = BodyStep::Repeat {
        count: value_of(alloc, Slot::Index { level: 0 })?,
        body: vec![in alloc; condition]?,
    };
    Ok(BodyStep::Repeat {
        count: first_field(alloc)?,
        body: vec![in alloc; inner]?,
    })
}

/// The numbers that a body is judged by.
#[derive(Clone, Copy)]
struct Numbers {
    /// The local that is declared second.
    second: u32,
    /// The local that is assigned to.
    assigned: u32,
    /// The function whose answer is used, and how many arguments it gets.
    answers: (u32, usize),
    /// The function whose answer isn't, and how many arguments it gets.
    called: (u32, usize),
}

/// Every statement of a body.
fn body(alloc: Global, numbers: Numbers) -> Result<Vec<BodyStep>, AllocError> {
    let answer = Source::Answer {
        function: numbers.answers.0,
        arguments: arguments(alloc, numbers.answers.1)?,
    };
    let call = BodyStep::Call {
        function: numbers.called.0,
        arguments: arguments(alloc, numbers.called.1)?,
    };
    Ok(vec![in alloc;
        local(0, None),
        local(numbers.second, Some(answer)),
        call,
        turns(alloc, numbers.assigned)?,
    ]?)
}

fn with_numbers(alloc: Global, numbers: Numbers) -> Result<bool, AllocError> {
    let mut parts = no_parts(alloc);
    parts.body = body(alloc, numbers)?;
    Ok(sound(&machine(alloc, parts)?))
}

#[test]
fn bodies_with_every_statement_are_sound(rt: HostRuntime) -> Result<(), Fail> {
    let right = Numbers {
        second: 1,
        assigned: 1,
        answers: (0, 1),
        called: (1, 0),
    };
    let cases = [
        (right, true, "right"),
        (
            Numbers {
                called: (0, 1),
                ..right
            },
            true,
            "an answer that isn't used",
        ),
        (
            Numbers { second: 0, ..right },
            false,
            "a local that is declared twice",
        ),
        (
            Numbers { second: 2, ..right },
            false,
            "a number that is left out",
        ),
        (
            Numbers {
                assigned: 2,
                ..right
            },
            false,
            "no such local",
        ),
        (
            Numbers {
                answers: (1, 0),
                ..right
            },
            false,
            "a function without an answer",
        ),
        (
            Numbers {
                answers: (2, 1),
                ..right
            },
            false,
            "no such function",
        ),
        (
            Numbers {
                answers: (0, 2),
                ..right
            },
            false,
            "one argument too many",
        ),
        (
            Numbers {
                called: (0, 0),
                ..right
            },
            false,
            "one argument too few",
        ),
    ];
    for (numbers, wanted, why) in cases {
        assert_eq!(rt; with_numbers(rt.alloc(), numbers)?, wanted, "{why}");
    }
    Ok(())
}

fn element(alloc: Global, first: u32, count: u32) -> Result<Constraint, AllocError> {
    Ok(Constraint {
        expr: Expr::Element(first, count, Box::new(alloc, Expr::Variable(0))?),
        slots: vec![in alloc;
            Slot::Own { field: 0 },
            Slot::Own { field: 1 },
            Slot::Own { field: 2 },
        ]?,
    })
}

// The elements of an array are among the slots of its expression, and at least one.
#[test]
fn arrays_are_judged(rt: HostRuntime) -> Result<(), Fail> {
    let alloc = rt.alloc();
    for (first, count, wanted) in [
        (1, 2, true),
        (2, 1, true),
        (1, 0, false),
        (1, 3, false),
        (3, 1, false),
    ] {
        let mut parts = no_parts(alloc);
        parts.worker = vec![in alloc; element(alloc, first, count)?]?;
        assert_eq!(rt;
            sound(&machine(alloc, parts)?),
            wanted,
            "{count} from {first}"
        );
    }
    Ok(())
}
