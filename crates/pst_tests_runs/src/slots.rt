// Where each slot of an expression has a meaning, and where it has none.
use crate::machine::{Parts, machine, no_parts, traversal, value_of};
use pst_expr::Span;
use pst_model::{BodyStep, Constraint, ObjectKind, Slot, Source, Step};
use pst_sound::sound;
use std::alloc::{AllocError, Global};
use std::test::Fail;

/// Where an expression stands.
#[derive(Clone, Copy)]
enum Place {
    /// A constraint of the worker.
    Worker,
    /// A constraint of the plan.
    Plan,
    /// An inline constraint on a worker, in a repetition of the plan.
    InlineWorker,
    /// An inline constraint on the plan, in no repetition.
    InlinePlan,
    /// A condition in a repetition of the plan.
    Condition,
    /// The count of a repetition in a repetition of the worker's body, which has one local.
    Body,
    /// A constraint of the object of the kind.
    Object(ObjectKind),
}

fn repeated(alloc: Global, step: Step) -> Result<Step, AllocError> {
    Ok(Step::Repeat {
        count: value_of(alloc, Slot::Own { field: 0 })?,
        body: Box::new(alloc, step)?,
    })
}

fn with_inline(alloc: Global, constraint: Constraint) -> Result<Vec<Step>, AllocError> {
    let traversal = Step::Traverse {
        action: 0,
        handle: None,
        inline: vec![in alloc; constraint]?,
    };
    Ok(vec![in alloc; repeated(alloc, traversal)?]?)
}

fn with_condition(alloc: Global, condition: Constraint) -> Result<Vec<Step>, AllocError> {
    let conditional = Step::If {
        condition,
        yes: Box::new(alloc, traversal(alloc, 0, None))?,
        no: None,
    };
    Ok(vec![in alloc; repeated(alloc, conditional)?]?)
}

fn with_count(alloc: Global, count: Constraint) -> Result<Vec<BodyStep>, AllocError> {
    let local = BodyStep::Declare {
        local: 0,
        range: Span { low: 0, high: 7 },
        value: Some(Source::Value(value_of(alloc, Slot::Own { field: 0 })?)),
    };
    let inner = BodyStep::Repeat {
        count,
        body: Vec::new(alloc),
    };
    let outer = BodyStep::Repeat {
        count: value_of(alloc, Slot::Local { local: 0 })?,
        body: vec![in alloc; inner]?,
    };
    Ok(vec![in alloc; local, outer]?)
}

/// The parts of a model that has the expression at the place.
fn parts_with(alloc: Global, place: Place, expression: Constraint) -> Result<Parts, AllocError> {
    let mut parts = no_parts(alloc);
    match place {
        Place::Worker => parts.worker = vec![in alloc; expression]?,
        Place::Plan => parts.plan = vec![in alloc; expression]?,
        Place::InlineWorker => parts.steps = with_inline(alloc, expression)?,
        Place::InlinePlan => parts.inline = vec![in alloc; expression]?,
        Place::Condition => parts.steps = with_condition(alloc, expression)?,
        Place::Body => parts.body = with_count(alloc, expression)?,
        Place::Object(kind) => {
            parts.kind = kind;
            parts.object = vec![in alloc; expression]?;
        }
    }
    Ok(parts)
}

/// Whether a model with the slot at the place is sound.
fn has_meaning(alloc: Global, place: Place, slot: Slot) -> Result<bool, AllocError> {
    let parts = parts_with(alloc, place, value_of(alloc, slot)?)?;
    Ok(sound(&machine(alloc, parts)?))
}

fn through(alloc: Global, slot: Slot) -> Result<Slot, AllocError> {
    Ok(Slot::Through {
        handle: 0,
        slot: Box::new(alloc, slot)?,
    })
}

fn outer(alloc: Global, slot: Slot) -> Result<Slot, AllocError> {
    Ok(Slot::Outer {
        slot: Box::new(alloc, slot)?,
    })
}

/// One slot of each kind, in the order of their declaration.
fn slots(alloc: Global) -> Result<Vec<Slot>, AllocError> {
    Ok(vec![in alloc;
        Slot::Own { field: 0 },
        Slot::Object {
            reference: 0,
            field: 0
        },
        Slot::First { reference: 2 },
        Slot::ClaimId { claim: 0 },
        Slot::ClaimField { claim: 0, field: 0 },
        Slot::Prev { field: 0 },
        Slot::IsFirst,
        Slot::Id,
        Slot::Index { level: 0 },
        Slot::Local { local: 0 },
        through(alloc, Slot::Own { field: 0 })?,
        outer(alloc, Slot::Own { field: 0 })?,
    ]?)
}

const YES: bool = true;

const NO: bool = false;

/// Which of the slots have a meaning at each place.
const MEANINGS: [(Place, [bool; 12]); 10] = [
    (
        Place::Worker,
        [YES, YES, YES, YES, YES, NO, NO, NO, NO, NO, NO, NO],
    ),
    (
        Place::Plan,
        [YES, NO, NO, NO, NO, NO, NO, NO, NO, NO, YES, NO],
    ),
    (
        Place::InlineWorker,
        [YES, YES, YES, YES, YES, NO, NO, NO, YES, NO, NO, YES],
    ),
    (
        Place::InlinePlan,
        [YES, NO, NO, NO, NO, NO, NO, NO, NO, NO, YES, YES],
    ),
    (
        Place::Condition,
        [YES, NO, NO, NO, NO, NO, NO, NO, YES, NO, NO, NO],
    ),
    (
        Place::Body,
        [YES, YES, YES, YES, YES, NO, NO, NO, YES, YES, NO, NO],
    ),
    (
        Place::Object(ObjectKind::Buffer),
        [YES, NO, NO, NO, NO, NO, NO, NO, NO, NO, NO, NO],
    ),
    (
        Place::Object(ObjectKind::Stream),
        [YES, NO, NO, NO, NO, NO, NO, NO, NO, NO, NO, NO],
    ),
    (
        Place::Object(ObjectKind::State),
        [YES, NO, NO, NO, NO, YES, YES, NO, NO, NO, NO, NO],
    ),
    (
        Place::Object(ObjectKind::Resource),
        [YES, NO, NO, NO, NO, NO, NO, YES, NO, NO, NO, NO],
    ),
];

#[test]
fn slots_have_a_meaning_where_they_belong(rt: HostRuntime) -> Result<(), Fail> {
    for (at, (place, meanings)) in MEANINGS.iter().enumerate() {
        for (kind, (slot, wanted)) in slots(rt.alloc())?.into_iter().zip(meanings).enumerate() {
            assert_eq!(rt;
                has_meaning(rt.alloc(), *place, slot)?,
                *wanted,
                "slot {kind} at {at}"
            );
        }
    }
    Ok(())
}

// A number names an entry of its list, and of the right kind.
#[test]
fn numbers_of_slots_are_judged(rt: HostRuntime) -> Result<(), Fail> {
    let cases = [
        (Slot::Own { field: 2 }, true),
        (Slot::Own { field: 3 }, false),
        (
            Slot::Object {
                reference: 2,
                field: 0,
            },
            true,
        ),
        (
            Slot::Object {
                reference: 3,
                field: 0,
            },
            false,
        ),
        (
            Slot::Object {
                reference: 2,
                field: 1,
            },
            false,
        ),
        (Slot::First { reference: 1 }, false),
        (Slot::First { reference: 3 }, false),
        (Slot::ClaimId { claim: 1 }, false),
        (Slot::ClaimField { claim: 0, field: 1 }, false),
    ];
    for (k, (slot, wanted)) in cases.into_iter().enumerate() {
        assert_eq!(rt;
            has_meaning(rt.alloc(), Place::Worker, slot)?,
            wanted,
            "slot {k}"
        );
    }
    let alloc = rt.alloc();
    assert!(rt; !has_meaning(alloc, Place::Body, Slot::Index { level: 1 })?);
    assert!(rt; !has_meaning(alloc, Place::Body, Slot::Local { local: 1 })?);
    assert!(rt;
        !has_meaning(
            alloc,
            Place::Object(ObjectKind::State),
            Slot::Prev { field: 1 }
        )?
    );
    Ok(())
}

// Behind a handle stands a slot of the traversed action without a further handle; round a traversal, any slot of a constraint.
#[test]
fn slots_of_other_actions_are_judged(rt: HostRuntime) -> Result<(), Fail> {
    let alloc = rt.alloc();
    assert!(rt;
        has_meaning(
            alloc,
            Place::Plan,
            through(alloc, Slot::ClaimId { claim: 0 })?
        )?
    );
    assert!(rt;
        has_meaning(
            alloc,
            Place::Plan,
            through(alloc, Slot::First { reference: 2 })?
        )?
    );
    assert!(rt; !has_meaning(alloc, Place::Plan, through(alloc, Slot::Own { field: 3 })?)?);
    let twice = through(alloc, through(alloc, Slot::Own { field: 0 })?)?;
    assert!(rt; !has_meaning(alloc, Place::InlinePlan, twice)?);
    let round = outer(alloc, through(alloc, Slot::Own { field: 1 })?)?;
    assert!(rt; has_meaning(alloc, Place::InlineWorker, round)?);
    let index = outer(alloc, Slot::Index { level: 0 })?;
    assert!(rt; !has_meaning(alloc, Place::InlineWorker, index)?);
    Ok(())
}
