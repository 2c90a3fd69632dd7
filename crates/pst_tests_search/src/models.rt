//! Models that are written as words. There is one component instance, whose pools serve all
//! references and claims.
//!
//! - `OBJECT KIND SIZE` begins an object type of that kind, with a pool of that size.
//! - `ACTION` begins an action type. `reference OBJECT OUTPUT` and then `claim OBJECT LOCK` add to it,
//!   where 1 stands for an output and a lock.
//! - `field LOW HIGH` adds a field to the last action type, `part LOW HIGH` to the last object type.
//! - `holds` makes the expression before it a constraint of the last action type, `keeps` of the last
//!   object type, and `with` an inline one of the next traversal.
//! - `ACTIVITY` makes the steps before it the activity of the last action type.
use crate::expressions::Expressions;
use crate::steps::Steps;
use crate::words::Words;
use pst_base::{NameId, NoMemory};
use pst_expr::Span;
use pst_joined_spans::{domain_of, joined_spans};
use pst_model::{
    ActionType, Activity, Claim, Constraint, Content, Field, Model, ObjectKind, ObjectType, Part,
    Pool, Reference, Serve,
};
use std::alloc::Global;
use std::mem;

const NAME: NameId = NameId(0);

fn object_kind(word: &str) -> ObjectKind {
    match word {
        "buffer" => ObjectKind::Buffer,
        "stream" => ObjectKind::Stream,
        "state" => ObjectKind::State,
        _ => ObjectKind::Resource,
    }
}

fn numbered(length: usize) -> u32 {
    u32::try_from(length).unwrap_or(0)
}

fn field(alloc: Global, words: &mut Words<'_>) -> Result<Field, NoMemory> {
    let low = words.number();
    let high = words.number();
    let mut spans = Vec::new(alloc);
    spans.push(Span { low, high })?;
    let joined = joined_spans(alloc, &spans)?;
    let domain = domain_of(joined)?;
    Ok(Field {
        name: NAME,
        domain,
        element: None,
    })
}

fn add_object(alloc: Global, model: &mut Model, words: &mut Words<'_>) -> Result<(), NoMemory> {
    let kind = object_kind(words.next());
    let object = numbered(model.objects.len());
    let size = words.index();
    model.objects.push(ObjectType {
        name: NAME,
        kind,
        fields: Vec::new(alloc),
        constraints: Vec::new(alloc),
    })?;
    model.pools.push(Pool {
        name: NAME,
        instance: 0,
        object,
        size,
    })?;
    Ok(())
}

fn add_action(alloc: Global, model: &mut Model) -> Result<(), NoMemory> {
    model.actions.push(ActionType {
        name: NAME,
        component: NAME,
        is_abstract: false,
        fields: Vec::new(alloc),
        references: Vec::new(alloc),
        claims: Vec::new(alloc),
        constraints: Vec::new(alloc),
        content: Content::Atomic(Vec::new(alloc)),
    })?;
    Ok(())
}

// The last action type's reference or claim is served by the pool of its object type.
fn serve(model: &mut Model, reference: u32, pool: u32) -> Result<(), NoMemory> {
    let action = numbered(model.actions.len()).saturating_sub(1);
    model.served.push(Serve {
        action,
        instance: 0,
        reference,
        pool,
    })?;
    Ok(())
}

fn add_reference(model: &mut Model, words: &mut Words<'_>) -> Result<(), NoMemory> {
    let object = words.index();
    let output = words.flag();
    let Some(action) = model.actions.last_mut() else {
        return Ok(());
    };
    let number = numbered(action.references.len());
    action.references.push(Reference {
        name: NAME,
        object,
        output,
    })?;
    serve(model, number, object)
}

fn add_claim(model: &mut Model, words: &mut Words<'_>) -> Result<(), NoMemory> {
    let object = words.index();
    let lock = words.flag();
    let Some(action) = model.actions.last_mut() else {
        return Ok(());
    };
    let number = numbered(action.references.len()).saturating_add(numbered(action.claims.len()));
    action.claims.push(Claim {
        name: NAME,
        object,
        lock,
    })?;
    serve(model, number, object)
}

fn add_field(alloc: Global, model: &mut Model, words: &mut Words<'_>) -> Result<(), NoMemory> {
    let field = field(alloc, words)?;
    if let Some(action) = model.actions.last_mut() {
        action.fields.push(field)?;
    }
    Ok(())
}

fn add_part(alloc: Global, model: &mut Model, words: &mut Words<'_>) -> Result<(), NoMemory> {
    let field = field(alloc, words)?;
    if let Some(object) = model.objects.last_mut() {
        object.fields.push(field)?;
    }
    Ok(())
}

fn constrain_action(model: &mut Model, constraint: Constraint) -> Result<(), NoMemory> {
    if let Some(action) = model.actions.last_mut() {
        action.constraints.push(constraint)?;
    }
    Ok(())
}

fn constrain_object(model: &mut Model, constraint: Constraint) -> Result<(), NoMemory> {
    if let Some(object) = model.objects.last_mut() {
        object.constraints.push(constraint)?;
    }
    Ok(())
}

fn fill_activity(alloc: Global, model: &mut Model, steps: &mut Steps) {
    if let Some(action) = model.actions.last_mut() {
        action.content = Content::Compound(Activity {
            handles: mem::replace(&mut steps.handles, Vec::new(alloc)),
            steps: steps.whole(),
            binds: Vec::new(alloc),
        });
    }
}

// Takes a word that declares something.
fn declare(
    alloc: Global,
    model: &mut Model,
    word: &str,
    words: &mut Words<'_>,
) -> Result<(), NoMemory> {
    match word {
        "OBJECT" => add_object(alloc, model, words),
        "ACTION" => add_action(alloc, model),
        "reference" => add_reference(model, words),
        "claim" => add_claim(model, words),
        "field" => add_field(alloc, model, words),
        _ => add_part(alloc, model, words),
    }
}

fn is_declaration(word: &str) -> bool {
    matches!(
        word,
        "OBJECT" | "ACTION" | "reference" | "claim" | "field" | "part"
    )
}

fn is_step(word: &str) -> bool {
    matches!(
        word,
        "do" | "handle" | "branch" | "select" | "repeat" | "sequence" | "parallel" | "schedule"
    )
}

// Takes a word.
fn take(
    alloc: Global,
    model: &mut Model,
    expressions: &mut Expressions,
    steps: &mut Steps,
    word: &str,
    words: &mut Words<'_>,
) -> Result<(), NoMemory> {
    if is_declaration(word) {
        return declare(alloc, model, word, words);
    }
    if is_step(word) {
        return steps.take(word, words, expressions);
    }
    match word {
        "holds" => constrain_action(model, expressions.whole()),
        "keeps" => constrain_object(model, expressions.whole()),
        "with" => {
            steps.inline.push(expressions.whole())?;
            Ok(())
        }
        "turns" => steps.repeat(expressions.whole()),
        "ACTIVITY" => {
            fill_activity(alloc, model, steps);
            Ok(())
        }
        _ => expressions.take(word, words),
    }
}

fn empty(alloc: Global) -> Model {
    Model {
        actions: Vec::new(alloc),
        objects: Vec::new(alloc),
        instances: Vec::new(alloc),
        pools: Vec::new(alloc),
        functions: Vec::new(alloc),
        served: Vec::new(alloc),
    }
}

/// The model of a text.
pub fn model_of(alloc: Global, text: &str) -> Result<Model, NoMemory> {
    let mut model = empty(alloc);
    model.instances.push(Part {
        name: NAME,
        component: NAME,
        parent: None,
        last: 0,
    })?;
    let mut expressions = Expressions::new(alloc);
    let mut steps = Steps::new(alloc);
    let mut words = Words { left: text };
    for _ in 0..text.len() {
        let word = words.next();
        if word.is_empty() {
            break;
        }
        take(
            alloc,
            &mut model,
            &mut expressions,
            &mut steps,
            word,
            &mut words,
        )?;
    }
    Ok(model)
}
