// A model with each kind of object, of which parts can be put in.
use pst_base::NameId;
use pst_expr::{Domain, Expr, Span};
use pst_model::{
    ActionType, Activity, BodyStep, Claim, Constraint, Content, Field, Function, Model, ObjectKind,
    ObjectType, Part, Pool, Reference, Serve, Slot, Step, Tie,
};
use std::alloc::{AllocError, Global};

/// What is put into the model.
#[derive(Drop)]
pub struct Parts {
    /// The constraints of the worker, an atomic action.
    pub worker: Vec<Constraint>,
    /// The body of the worker.
    pub body: Vec<BodyStep>,
    /// The constraints of the plan, a compound action with the handles 0 of a worker and 1 of a reader.
    pub plan: Vec<Constraint>,
    /// The steps of the plan, behind the traversals by its two handles.
    pub steps: Vec<Step>,
    /// The inline constraints on the plan, in the activity of the action that traverses it.
    pub inline: Vec<Constraint>,
    /// The kind of the object that has the constraints.
    pub kind: ObjectKind,
    /// Its constraints.
    pub object: Vec<Constraint>,
}

/// No parts at all.
pub fn no_parts(alloc: Global) -> Parts {
    Parts {
        worker: Vec::new(alloc),
        body: Vec::new(alloc),
        plan: Vec::new(alloc),
        steps: Vec::new(alloc),
        inline: Vec::new(alloc),
        kind: ObjectKind::Buffer,
        object: Vec::new(alloc),
    }
}

/// An expression that is the value of a slot.
pub fn value_of(alloc: Global, slot: Slot) -> Result<Constraint, AllocError> {
    Ok(Constraint {
        expr: Expr::Variable(0),
        slots: vec![in alloc; slot]?,
    })
}

/// A traversal without inline constraints.
pub fn traversal(alloc: Global, action: u32, handle: Option<u32>) -> Step {
    Step::Traverse {
        action,
        handle,
        inline: Vec::new(alloc),
    }
}

fn field(alloc: Global, element: Option<u32>) -> Result<Field, AllocError> {
    Ok(Field {
        name: NameId(0),
        domain: Domain::new(vec![in alloc; Span { low: 0, high: 7 }]?),
        element,
    })
}

fn reference(object: u32, output: bool) -> Reference {
    Reference {
        name: NameId(0),
        object,
        output,
    }
}

/// An atomic action with a field and an array of two elements, that puts out a buffer (its reference 0) and a stream (1),
/// reads a state (2) and claims a resource.
fn worker(
    alloc: Global,
    constraints: Vec<Constraint>,
    body: Vec<BodyStep>,
) -> Result<ActionType, AllocError> {
    Ok(ActionType {
        name: NameId(1),
        component: NameId(0),
        is_abstract: false,
        fields: vec![in alloc;
            field(alloc, None)?,
            field(alloc, Some(0))?,
            field(alloc, Some(1))?,
        ]?,
        references: vec![in alloc; reference(0, true), reference(1, true), reference(2, false)]?,
        claims: vec![in alloc;
            Claim {
                name: NameId(0),
                object: 3,
                lock: true
            },
        ]?,
        constraints,
        content: Content::Atomic(body),
    })
}

/// An atomic action that takes in the buffer and the stream and writes the state.
fn reader(alloc: Global) -> Result<ActionType, AllocError> {
    Ok(ActionType {
        name: NameId(2),
        component: NameId(0),
        is_abstract: false,
        fields: Vec::new(alloc),
        references: vec![in alloc;
            reference(0, false),
            reference(1, false),
            reference(2, true),
        ]?,
        claims: Vec::new(alloc),
        constraints: Vec::new(alloc),
        content: Content::Atomic(Vec::new(alloc)),
    })
}

fn compound(
    alloc: Global,
    constraints: Vec<Constraint>,
    activity: Activity,
) -> Result<ActionType, AllocError> {
    Ok(ActionType {
        name: NameId(3),
        component: NameId(0),
        is_abstract: false,
        fields: vec![in alloc; field(alloc, None)?]?,
        references: Vec::new(alloc),
        claims: Vec::new(alloc),
        constraints,
        content: Content::Compound(activity),
    })
}

fn bind(reference: u32) -> Tie {
    Tie {
        from_handle: 0,
        from_reference: reference,
        to_handle: 1,
        to_reference: reference,
    }
}

/// A compound action that traverses a worker and a reader and binds their buffer and their stream.
fn plan(
    alloc: Global,
    constraints: Vec<Constraint>,
    steps: Vec<Step>,
) -> Result<ActionType, AllocError> {
    let both = vec![in alloc; traversal(alloc, 0, Some(0)), traversal(alloc, 1, Some(1))]?;
    let activity = Activity {
        handles: vec![in alloc; 0, 1]?,
        steps: vec![in alloc; Step::Parallel(both), Step::Sequence(steps)]?,
        binds: vec![in alloc; bind(0), bind(1)]?,
    };
    compound(alloc, constraints, activity)
}

/// A compound action that traverses the plan by its handle.
fn top(alloc: Global, inline: Vec<Constraint>) -> Result<ActionType, AllocError> {
    let step = Step::Traverse {
        action: 2,
        handle: Some(0),
        inline,
    };
    let activity = Activity {
        handles: vec![in alloc; 2]?,
        steps: vec![in alloc; step]?,
        binds: Vec::new(alloc),
    };
    compound(alloc, Vec::new(alloc), activity)
}

/// An object type with one field, and with the constraints where it is of that kind.
fn object(alloc: Global, kind: ObjectKind) -> Result<ObjectType, AllocError> {
    Ok(ObjectType {
        name: NameId(0),
        kind,
        fields: vec![in alloc; field(alloc, None)?]?,
        constraints: Vec::new(alloc),
    })
}

/// An object type of each kind, of which one has the constraints.
fn objects(
    alloc: Global,
    kind: ObjectKind,
    constraints: Vec<Constraint>,
) -> Result<Vec<ObjectType>, AllocError> {
    let mut buffer = object(alloc, ObjectKind::Buffer)?;
    let mut stream = object(alloc, ObjectKind::Stream)?;
    let mut state = object(alloc, ObjectKind::State)?;
    let mut resource = object(alloc, ObjectKind::Resource)?;
    match kind {
        ObjectKind::Buffer => buffer.constraints = constraints,
        ObjectKind::Stream => stream.constraints = constraints,
        ObjectKind::State => state.constraints = constraints,
        ObjectKind::Resource => resource.constraints = constraints,
    }
    Ok(vec![in alloc; buffer, stream, state, resource]?)
}

fn pool(object: u32, size: u32) -> Pool {
    Pool {
        name: NameId(0),
        instance: 0,
        object,
        size,
    }
}

fn serve(action: u32, reference: u32) -> Serve {
    Serve {
        action,
        instance: 0,
        reference,
        pool: reference,
    }
}

/// Function 0 takes a number from 0 to 7 and answers one; function 1 takes none and answers none.
fn functions(alloc: Global) -> Result<Vec<Function>, AllocError> {
    Ok(vec![in alloc;
        Function {
            name: NameId(0),
            parameters: vec![in alloc; Span { low: 0, high: 7 }]?,
            answer: Some(Span { low: 0, high: 7 }),
        },
        Function {
            name: NameId(0),
            parameters: Vec::new(alloc),
            answer: None,
        },
    ]?)
}

/// The model: worker, reader, plan and the action above it, with a pool of each object type in the one instance.
pub fn machine(alloc: Global, parts: Parts) -> Result<Model, AllocError> {
    Ok(Model {
        actions: vec![in alloc;
            worker(alloc, parts.worker, parts.body)?,
            reader(alloc)?,
            plan(alloc, parts.plan, parts.steps)?,
            top(alloc, parts.inline)?,
        ]?,
        objects: objects(alloc, parts.kind, parts.object)?,
        instances: vec![in alloc;
            Part {
                name: NameId(0),
                component: NameId(0),
                parent: None,
                last: 0
            },
        ]?,
        pools: vec![in alloc; pool(0, 1), pool(1, 1), pool(2, 1), pool(3, 4)]?,
        functions: functions(alloc)?,
        served: vec![in alloc;
            serve(0, 0),
            serve(0, 1),
            serve(0, 2),
            serve(0, 3),
            serve(1, 0),
            serve(1, 1),
            serve(1, 2),
        ]?,
    })
}
