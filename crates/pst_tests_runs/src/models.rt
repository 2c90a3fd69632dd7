use pst_base::NameId;
use pst_expr::{Domain, Expr, Span};
use pst_model::{
    ActionType, Activity, Arm, BodyStep, Branch, Claim, Constraint, Content, Field, Function, Join,
    Model, ObjectKind, ObjectType, Part, Pool, Reference, Serve, Slot, Source, Step, Tie,
};
use pst_sound::{pool_of, sound};
use std::alloc::{AllocError, Global};
use std::marker::{Send, Sync};
use std::test::Fail;

// An expression that is the value of a slot.
fn value_of(alloc: Global, slot: Slot) -> Result<Constraint, AllocError> {
    Ok(Constraint {
        expr: Expr::Variable(0),
        slots: vec![in alloc; slot]?,
    })
}

fn number(alloc: Global, number: i64) -> Constraint {
    Constraint {
        expr: Expr::Constant(number),
        slots: Vec::new(alloc),
    }
}

// A field of the numbers 0 to 7.
fn field(alloc: Global, name: u32) -> Result<Field, AllocError> {
    Ok(Field {
        name: NameId(name),
        domain: Domain::new(vec![in alloc; Span { low: 0, high: 7 }]?),
        element: None,
    })
}

fn object(alloc: Global, kind: ObjectKind, slot: Slot) -> Result<ObjectType, AllocError> {
    Ok(ObjectType {
        name: NameId(1),
        kind,
        fields: vec![in alloc; field(alloc, 2)?]?,
        constraints: vec![in alloc; value_of(alloc, slot)?]?,
    })
}

// An action that puts out a packet on a channel, and calls a function with a local.
fn producer(alloc: Global) -> Result<ActionType, AllocError> {
    let body = vec![in alloc;
        BodyStep::Declare {
            local: 0,
            range: Span { low: 0, high: 7 },
            value: Some(Source::Answer {
                function: 0,
                arguments: vec![in alloc;
                    value_of(
                        alloc,
                        Slot::Object {
                            reference: 0,
                            field: 0
                        }
                    )?
                ]?,
            }),
        },
        BodyStep::Repeat {
            count: value_of(alloc, Slot::Local { local: 0 })?,
            body: vec![in alloc;
                BodyStep::Assign {
                    local: 0,
                    value: Source::Value(value_of(alloc, Slot::Index { level: 0 })?),
                },
            ]?,
        },
    ]?;
    Ok(ActionType {
        name: NameId(3),
        component: NameId(4),
        is_abstract: false,
        fields: vec![in alloc; field(alloc, 5)?]?,
        references: vec![in alloc;
            Reference {
                name: NameId(6),
                object: 0,
                output: true
            },
        ]?,
        claims: vec![in alloc;
            Claim {
                name: NameId(7),
                object: 1,
                lock: true
            },
        ]?,
        constraints: vec![in alloc; value_of(alloc, Slot::ClaimId { claim: 0 })?]?,
        content: Content::Atomic(body),
    })
}

// An action that takes a packet in.
fn consumer(alloc: Global) -> Result<ActionType, AllocError> {
    Ok(ActionType {
        name: NameId(8),
        component: NameId(4),
        is_abstract: false,
        fields: Vec::new(alloc),
        references: vec![in alloc;
            Reference {
                name: NameId(6),
                object: 0,
                output: false
            },
        ]?,
        claims: Vec::new(alloc),
        constraints: Vec::new(alloc),
        content: Content::Atomic(Vec::new(alloc)),
    })
}

// The producer, once.
fn first(alloc: Global) -> Result<Step, AllocError> {
    let outer = Slot::Outer {
        slot: Box::new(alloc, Slot::Own { field: 0 })?,
    };
    Ok(Step::Traverse {
        action: 0,
        handle: Some(0),
        inline: vec![in alloc; value_of(alloc, outer)?]?,
    })
}

// The producer again, in a repetition.
fn again(alloc: Global) -> Result<Step, AllocError> {
    let traversal = Step::Traverse {
        action: 0,
        handle: None,
        inline: vec![in alloc; value_of(alloc, Slot::Index { level: 0 })?]?,
    };
    let body = Box::new(alloc, traversal)?;
    Ok(Step::Repeat {
        count: value_of(alloc, Slot::Own { field: 0 })?,
        body,
    })
}

// The producer and then the consumer, each once, and the producer again in a repetition.
fn steps(alloc: Global) -> Result<Vec<Step>, AllocError> {
    let mut steps = Vec::new(alloc);
    steps.push(first(alloc)?)?;
    steps.push(traversal(alloc, 1, 1))?;
    steps.push(again(alloc)?)?;
    Ok(steps)
}

fn compound(alloc: Global) -> Result<ActionType, AllocError> {
    let through = Slot::Through {
        handle: 0,
        slot: Box::new(alloc, Slot::Own { field: 0 })?,
    };
    Ok(ActionType {
        name: NameId(9),
        component: NameId(4),
        is_abstract: false,
        fields: vec![in alloc; field(alloc, 5)?]?,
        references: Vec::new(alloc),
        claims: Vec::new(alloc),
        constraints: vec![in alloc; value_of(alloc, through)?]?,
        content: Content::Compound(Activity {
            handles: vec![in alloc; 0, 1]?,
            steps: steps(alloc)?,
            binds: vec![in alloc;
                Tie {
                    from_handle: 0,
                    from_reference: 0,
                    to_handle: 1,
                    to_reference: 0
                },
            ]?,
        }),
    })
}

fn serve(action: u32, reference: u32, pool: u32) -> Serve {
    Serve {
        action,
        instance: 1,
        reference,
        pool,
    }
}

// Packets go from a producer to a consumer in a component below the root.
fn packets(alloc: Global) -> Result<Model, AllocError> {
    Ok(Model {
        actions: vec![in alloc; producer(alloc)?, consumer(alloc)?, compound(alloc)?]?,
        objects: vec![in alloc;
            object(alloc, ObjectKind::Buffer, Slot::Own { field: 0 })?,
            object(alloc, ObjectKind::Resource, Slot::Id)?,
        ]?,
        instances: vec![in alloc;
            Part {
                name: NameId(0),
                component: NameId(0),
                parent: None,
                last: 1
            },
            Part {
                name: NameId(10),
                component: NameId(4),
                parent: Some(0),
                last: 1
            },
        ]?,
        pools: vec![in alloc;
            Pool {
                name: NameId(11),
                instance: 1,
                object: 0,
                size: 1
            },
            Pool {
                name: NameId(12),
                instance: 0,
                object: 1,
                size: 2
            },
        ]?,
        functions: vec![in alloc;
            Function {
                name: NameId(13),
                parameters: vec![in alloc; Span { low: 0, high: 7 }]?,
                answer: Some(Span { low: 0, high: 7 }),
            },
        ]?,
        served: vec![in alloc; serve(0, 0, 0), serve(0, 1, 1), serve(1, 0, 0)]?,
    })
}

#[test]
fn packets_are_sound(rt: HostRuntime) -> Result<(), Fail> {
    let model = packets(rt.alloc())?;
    assert!(rt; sound(&model));
    assert_eq!(rt; pool_of(&model, 0, 1, 1), Some(1));
    assert_eq!(rt; pool_of(&model, 1, 1, 0), Some(0));
    assert_eq!(rt; pool_of(&model, 1, 0, 0), None);
    Ok(())
}

// Whether packets are sound with another pool of channels.
fn with_pool(alloc: Global, instance: u32, object: u32, size: u32) -> Result<bool, AllocError> {
    let mut model = packets(alloc)?;
    model.pools = vec![in alloc;
        Pool {
            name: NameId(11),
            instance: 1,
            object: 0,
            size: 1
        },
        Pool {
            name: NameId(12),
            instance,
            object,
            size
        },
    ]?;
    Ok(sound(&model))
}

#[test]
fn pools_are_judged(rt: HostRuntime) -> Result<(), Fail> {
    let alloc = rt.alloc();
    assert!(rt; with_pool(alloc, 0, 1, 1024)?);
    assert!(rt; !with_pool(alloc, 0, 1, 1025)?);
    assert!(rt; !with_pool(alloc, 0, 1, 0)?);
    assert!(rt; !with_pool(alloc, 2, 1, 1)?);
    assert!(rt;
        !with_pool(alloc, 0, 0, 1)?,
        "a pool of another object type"
    );
    Ok(())
}

// Whether packets are sound with another place of the component below the root.
fn with_place(alloc: Global, last: u32, parent: Option<u32>) -> Result<bool, AllocError> {
    let mut model = packets(alloc)?;
    model.instances = vec![in alloc;
        Part {
            name: NameId(0),
            component: NameId(0),
            parent: None,
            last
        },
        Part {
            name: NameId(10),
            component: NameId(4),
            parent,
            last: 1
        },
    ]?;
    Ok(sound(&model))
}

#[test]
fn instances_stand_in_preorder(rt: HostRuntime) -> Result<(), Fail> {
    let alloc = rt.alloc();
    assert!(rt; with_place(alloc, 1, Some(0))?);
    assert!(rt; !with_place(alloc, 0, Some(0))?, "the root ends too early");
    assert!(rt; !with_place(alloc, 1, None)?, "two roots");
    assert!(rt; !with_place(alloc, 1, Some(1))?, "an instance in itself");
    Ok(())
}

// Whether packets are sound with these served pools.
fn with_served(alloc: Global, served: Vec<Serve>) -> Result<bool, AllocError> {
    let mut model = packets(alloc)?;
    model.served = served;
    Ok(sound(&model))
}

#[test]
fn references_are_served(rt: HostRuntime) -> Result<(), Fail> {
    let alloc = rt.alloc();
    let few = vec![in alloc; serve(0, 0, 0), serve(0, 1, 1)]?;
    assert!(rt; !with_served(alloc, few)?, "the consumer has no pool");
    let turned = vec![in alloc; serve(0, 1, 1), serve(0, 0, 0), serve(1, 0, 0)]?;
    assert!(rt; !with_served(alloc, turned)?, "another order");
    Ok(())
}

// Whether packets are sound with these steps in place of the compound action's.
fn with_step(alloc: Global, step: Step) -> Result<bool, AllocError> {
    let activity = Activity {
        handles: vec![in alloc; 0, 1]?,
        steps: vec![in alloc; step]?,
        binds: Vec::new(alloc),
    };
    let mut action = consumer(alloc)?;
    action.references = Vec::new(alloc);
    action.content = Content::Compound(activity);
    let mut model = packets(alloc)?;
    model.actions = vec![in alloc; producer(alloc)?, consumer(alloc)?, action]?;
    Ok(sound(&model))
}

fn traversal(alloc: Global, action: u32, handle: u32) -> Step {
    Step::Traverse {
        action,
        handle: Some(handle),
        inline: Vec::new(alloc),
    }
}

#[test]
fn traversals_are_judged(rt: HostRuntime) -> Result<(), Fail> {
    let alloc = rt.alloc();
    assert!(rt; with_step(alloc, traversal(alloc, 0, 0))?);
    assert!(rt;
        !with_step(alloc, traversal(alloc, 0, 1))?,
        "a handle of another type"
    );
    assert!(rt;
        !with_step(alloc, traversal(alloc, 3, 0))?,
        "no such action"
    );
    Ok(())
}

fn block(alloc: Global, joined: u64) -> Result<Step, AllocError> {
    Ok(Step::Joined {
        parallel: true,
        join: Join::Fixed { joined },
        steps: vec![in alloc; traversal(alloc, 0, 0), traversal(alloc, 1, 1)]?,
    })
}

fn choice(alloc: Global, weight: u32) -> Result<Step, AllocError> {
    let step = traversal(alloc, 0, 0);
    Ok(Step::Select(vec![in alloc;
        Branch {
            guard: None,
            weight,
            step
        },
    ]?))
}

// A match on 1 with the ranges 1 to 3 and `low` to 5.
fn ranges(alloc: Global, low: i64) -> Result<Step, AllocError> {
    let first = Arm {
        spans: vec![in alloc; Span { low: 1, high: 3 }]?,
        step: traversal(alloc, 0, 0),
    };
    let second = Arm {
        spans: vec![in alloc; Span { low, high: 5 }]?,
        step: traversal(alloc, 1, 1),
    };
    Ok(Step::Match {
        value: number(alloc, 1),
        arms: vec![in alloc; first, second]?,
        other: None,
    })
}

#[test]
fn blocks_are_judged(rt: HostRuntime) -> Result<(), Fail> {
    let alloc = rt.alloc();
    assert!(rt; with_step(alloc, block(alloc, 3)?)?);
    assert!(rt; !with_step(alloc, block(alloc, 4)?)?);
    assert!(rt; with_step(alloc, choice(alloc, 1000)?)?);
    assert!(rt; !with_step(alloc, choice(alloc, 1001)?)?);
    assert!(rt; with_step(alloc, ranges(alloc, 4)?)?);
    assert!(rt; !with_step(alloc, ranges(alloc, 3)?)?);
    Ok(())
}

fn may_cross<T: Send + Sync>() {}

// A model, and with it each of its parts.
#[test]
fn models_cross_threads() -> Result<(), Fail> {
    may_cross::<Model>();
    Ok(())
}
