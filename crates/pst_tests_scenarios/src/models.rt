//! Models of bodies that are written as texts.
use pst_base::{NameId, NoMemory};
use pst_model::{ActionType, Activity, Content, Model, Part};
use pst_tests_bodies::{Numbers, functions, read_steps};
use std::alloc::Global;

fn action(alloc: Global, content: Content) -> ActionType {
    ActionType {
        name: NameId(0),
        component: NameId(0),
        is_abstract: false,
        fields: Vec::new(alloc),
        references: Vec::new(alloc),
        claims: Vec::new(alloc),
        constraints: Vec::new(alloc),
        content,
    }
}

// The type of a body that is written as numbers.
fn atomic(alloc: Global, body: &str) -> Result<ActionType, NoMemory> {
    let mut numbers = Vec::new(alloc);
    for word in body.split_whitespace() {
        numbers.push(word.parse::<i64>().unwrap_or(0))?;
    }
    let mut left = Numbers {
        left: numbers.as_slice(),
    };
    let steps = read_steps(alloc, &mut left, 8)?;
    Ok(action(alloc, Content::Atomic(steps)))
}

// A type with an empty activity, and one for each body.
fn types(alloc: Global, bodies: &str) -> Result<Vec<ActionType>, NoMemory> {
    let mut types = Vec::new(alloc);
    let empty = Content::Compound(Activity {
        handles: Vec::new(alloc),
        steps: Vec::new(alloc),
        binds: Vec::new(alloc),
    });
    types.push(action(alloc, empty))?;
    for body in bodies.split(';') {
        types.push(atomic(alloc, body)?)?;
    }
    Ok(types)
}

/// The model of bodies, which are parted by `;`, each written as numbers in the form of the table of bodies. Its type 0 is compound and
/// empty, and the others have the bodies in their order.
pub fn model_of(alloc: Global, bodies: &str) -> Result<Model, NoMemory> {
    let actions = types(alloc, bodies)?;
    let top = Part {
        name: NameId(0),
        component: NameId(0),
        parent: None,
        last: 0,
    };
    Ok(Model {
        actions,
        objects: Vec::new(alloc),
        instances: Vec::from_slice(alloc, &[top])?,
        pools: Vec::new(alloc),
        functions: functions(alloc)?,
        served: Vec::new(alloc),
    })
}
