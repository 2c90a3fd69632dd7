//! Models that are written as numbers.
//!
//! In order, each list behind the count of its items:
//!
//! - instances: the component, 0 for the root or the number of the parent and 1, and the last
//!   instance in the subtree;
//! - object types: the kind, 0 to 3 for buffers, streams, states and resources, and the fields;
//! - pools: the instance, the object type and the size;
//! - what serves: the action type, the instance, the reference or claim, and the pool;
//! - action types: the component, 1 if abstract, the fields, the references (object type, 1 for an
//!   output), the claims (object type, 1 for a lock), and 0, or 1 and an activity.
//!
//! A field is the greatest of its values, of which the least is 0; -1 has the values 0, 1 and 5, and -2 those
//! from 0 to 2^63 - 1.
use crate::activities::activity;
use crate::numbers::{Numbers, numbers_of};
use pst_base::{NameId, NoMemory};
use pst_expr::{Domain, Span};
use pst_joined_spans::{domain_of, joined_spans};
use pst_model::{
    ActionType, Claim, Content, Field, Model, ObjectKind, ObjectType, Part, Pool, Reference, Serve,
};
use std::alloc::Global;

const NAME: NameId = NameId(0);

fn domain(alloc: Global, code: i64) -> Result<Domain, NoMemory> {
    let mut spans = Vec::new(alloc);
    let high = match code {
        -2 => i64::MAX,
        -1 => 1,
        _ => code,
    };
    spans.push(Span { low: 0, high })?;
    if code == -1 {
        spans.push(Span { low: 5, high: 5 })?;
    }
    domain_of(joined_spans(alloc, spans.as_slice())?)
}

fn fields(alloc: Global, numbers: &mut Numbers<'_>) -> Result<Vec<Field>, NoMemory> {
    let mut fields = Vec::new(alloc);
    for _ in 0..numbers.index() {
        let domain = domain(alloc, numbers.next())?;
        fields.push(Field {
            name: NAME,
            domain,
            element: None,
        })?;
    }
    Ok(fields)
}

fn references(alloc: Global, numbers: &mut Numbers<'_>) -> Result<Vec<Reference>, NoMemory> {
    let mut references = Vec::new(alloc);
    for _ in 0..numbers.index() {
        let object = numbers.index();
        let output = numbers.flag();
        references.push(Reference {
            name: NAME,
            object,
            output,
        })?;
    }
    Ok(references)
}

fn claims(alloc: Global, numbers: &mut Numbers<'_>) -> Result<Vec<Claim>, NoMemory> {
    let mut claims = Vec::new(alloc);
    for _ in 0..numbers.index() {
        let object = numbers.index();
        let lock = numbers.flag();
        claims.push(Claim {
            name: NAME,
            object,
            lock,
        })?;
    }
    Ok(claims)
}

fn content(alloc: Global, numbers: &mut Numbers<'_>) -> Result<Content, NoMemory> {
    if !numbers.flag() {
        return Ok(Content::Atomic(Vec::new(alloc)));
    }
    Ok(Content::Compound(activity(alloc, numbers)?))
}

fn action(alloc: Global, numbers: &mut Numbers<'_>) -> Result<ActionType, NoMemory> {
    let component = NameId(numbers.index());
    let is_abstract = numbers.flag();
    let fields = fields(alloc, numbers)?;
    let references = references(alloc, numbers)?;
    let claims = claims(alloc, numbers)?;
    let content = content(alloc, numbers)?;
    Ok(ActionType {
        name: NAME,
        component,
        is_abstract,
        fields,
        references,
        claims,
        constraints: Vec::new(alloc),
        content,
    })
}

fn object_kind(code: u32) -> ObjectKind {
    match code {
        0 => ObjectKind::Buffer,
        1 => ObjectKind::Stream,
        2 => ObjectKind::State,
        _ => ObjectKind::Resource,
    }
}

fn add_instances(numbers: &mut Numbers<'_>, instances: &mut Vec<Part>) -> Result<(), NoMemory> {
    for _ in 0..numbers.index() {
        let component = NameId(numbers.index());
        let parent = numbers.index().checked_sub(1);
        let last = numbers.index();
        instances.push(Part {
            name: NAME,
            component,
            parent,
            last,
        })?;
    }
    Ok(())
}

fn add_objects(
    alloc: Global,
    numbers: &mut Numbers<'_>,
    objects: &mut Vec<ObjectType>,
) -> Result<(), NoMemory> {
    for _ in 0..numbers.index() {
        let kind = object_kind(numbers.index());
        let fields = fields(alloc, numbers)?;
        objects.push(ObjectType {
            name: NAME,
            kind,
            fields,
            constraints: Vec::new(alloc),
        })?;
    }
    Ok(())
}

fn add_pools(numbers: &mut Numbers<'_>, pools: &mut Vec<Pool>) -> Result<(), NoMemory> {
    for _ in 0..numbers.index() {
        let instance = numbers.index();
        let object = numbers.index();
        let size = numbers.index();
        pools.push(Pool {
            name: NAME,
            instance,
            object,
            size,
        })?;
    }
    Ok(())
}

fn add_served(numbers: &mut Numbers<'_>, served: &mut Vec<Serve>) -> Result<(), NoMemory> {
    for _ in 0..numbers.index() {
        let action = numbers.index();
        let instance = numbers.index();
        let reference = numbers.index();
        let pool = numbers.index();
        served.push(Serve {
            action,
            instance,
            reference,
            pool,
        })?;
    }
    Ok(())
}

fn add_actions(
    alloc: Global,
    numbers: &mut Numbers<'_>,
    actions: &mut Vec<ActionType>,
) -> Result<(), NoMemory> {
    for _ in 0..numbers.index() {
        actions.push(action(alloc, numbers)?)?;
    }
    Ok(())
}

fn fill(alloc: Global, numbers: &mut Numbers<'_>, model: &mut Model) -> Result<(), NoMemory> {
    add_instances(numbers, &mut model.instances)?;
    add_objects(alloc, numbers, &mut model.objects)?;
    add_pools(numbers, &mut model.pools)?;
    add_served(numbers, &mut model.served)?;
    add_actions(alloc, numbers, &mut model.actions)
}

/// The model of a text of numbers.
pub fn model_of(alloc: Global, text: &str) -> Result<Model, NoMemory> {
    let all = numbers_of(alloc, text)?;
    let mut numbers = Numbers {
        left: all.as_slice(),
    };
    let mut model = Model {
        actions: Vec::new(alloc),
        objects: Vec::new(alloc),
        instances: Vec::new(alloc),
        pools: Vec::new(alloc),
        functions: Vec::new(alloc),
        served: Vec::new(alloc),
    };
    fill(alloc, &mut numbers, &mut model)?;
    Ok(model)
}
