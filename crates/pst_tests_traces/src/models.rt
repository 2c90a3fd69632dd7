//! Models that are written as texts.
use pst_base::{NameId, Names, NoMemory};
use pst_expr::{Domain, Span};
use pst_model::{
    ActionType, Claim, Content, Field, Model, ObjectKind, ObjectType, Part, Pool, Reference,
};
use std::alloc::Global;

/// The number of a word, or 0.
pub fn number(word: &str) -> u32 {
    word.parse::<u32>().unwrap_or(0)
}

fn name(names: &mut Names, word: &str) -> Result<NameId, NoMemory> {
    if names.len() == u32::MAX {
        return Err(NoMemory);
    }
    names.intern(word)
}

// A field, `NAME` or `NAME[INDEX]`.
fn field(alloc: Global, names: &mut Names, word: &str) -> Result<Field, NoMemory> {
    let span = Span { low: 0, high: 0 };
    let domain = Domain::new(Vec::from_slice(alloc, &[span])?);
    let (text, index) = word.split_once('[').unwrap_or((word, ""));
    let element = index.strip_suffix("]").map(number);
    Ok(Field {
        name: name(names, text)?,
        domain,
        element,
    })
}

fn fields(alloc: Global, names: &mut Names, words: &str) -> Result<Vec<Field>, NoMemory> {
    let mut fields = Vec::new(alloc);
    for word in words.split_whitespace() {
        let found = field(alloc, names, word)?;
        fields.push(found)?;
    }
    Ok(fields)
}

// A reference, `NAME.OBJECT`.
fn references(alloc: Global, names: &mut Names, words: &str) -> Result<Vec<Reference>, NoMemory> {
    let mut references = Vec::new(alloc);
    for word in words.split_whitespace() {
        let (text, object) = word.split_once('.').unwrap_or((word, ""));
        references.push(Reference {
            name: name(names, text)?,
            object: number(object),
            output: false,
        })?;
    }
    Ok(references)
}

// A claim, `NAME.OBJECT`.
fn claims(alloc: Global, names: &mut Names, words: &str) -> Result<Vec<Claim>, NoMemory> {
    let mut claims = Vec::new(alloc);
    for word in words.split_whitespace() {
        let (text, object) = word.split_once('.').unwrap_or((word, ""));
        claims.push(Claim {
            name: name(names, text)?,
            object: number(object),
            lock: true,
        })?;
    }
    Ok(claims)
}

// `COMPONENT NAME / FIELDS / REFERENCES / CLAIMS`.
fn action(alloc: Global, names: &mut Names, text: &str) -> Result<ActionType, NoMemory> {
    let mut parts = text.split('/');
    let mut words = parts.next().unwrap_or("").split_whitespace();
    let component = name(names, words.next().unwrap_or(""))?;
    let own = name(names, words.next().unwrap_or(""))?;
    let fields = fields(alloc, names, parts.next().unwrap_or(""))?;
    let references = references(alloc, names, parts.next().unwrap_or(""))?;
    let claims = claims(alloc, names, parts.next().unwrap_or(""))?;
    Ok(ActionType {
        name: own,
        component,
        is_abstract: false,
        fields,
        references,
        claims,
        constraints: Vec::new(alloc),
        content: Content::Atomic(Vec::new(alloc)),
    })
}

fn actions(alloc: Global, names: &mut Names, texts: &str) -> Result<Vec<ActionType>, NoMemory> {
    let mut actions = Vec::new(alloc);
    for text in texts.split(';') {
        let found = action(alloc, names, text)?;
        actions.push(found)?;
    }
    Ok(actions)
}

// The fields of the objects of each type.
fn objects(alloc: Global, names: &mut Names, texts: &str) -> Result<Vec<ObjectType>, NoMemory> {
    let mut objects = Vec::new(alloc);
    for text in texts.split(';') {
        let own = name(names, "object")?;
        let fields = fields(alloc, names, text)?;
        objects.push(ObjectType {
            name: own,
            kind: ObjectKind::Buffer,
            fields,
            constraints: Vec::new(alloc),
        })?;
    }
    Ok(objects)
}

// `NAME PARENT`, and `NAME` for the root.
fn part(names: &mut Names, text: &str) -> Result<Part, NoMemory> {
    let mut words = text.split_whitespace();
    let own = name(names, words.next().unwrap_or(""))?;
    Ok(Part {
        name: own,
        component: own,
        parent: words.next().map(number),
        last: 0,
    })
}

fn instances(alloc: Global, names: &mut Names, texts: &str) -> Result<Vec<Part>, NoMemory> {
    let mut instances = Vec::new(alloc);
    for text in texts.split(';') {
        let found = part(names, text)?;
        instances.push(found)?;
    }
    Ok(instances)
}

// `NAME INSTANCE OBJECT`.
fn pools(alloc: Global, names: &mut Names, texts: &str) -> Result<Vec<Pool>, NoMemory> {
    let mut pools = Vec::new(alloc);
    for text in texts.split(';') {
        let mut words = text.split_whitespace();
        let own = name(names, words.next().unwrap_or(""))?;
        pools.push(Pool {
            name: own,
            instance: number(words.next().unwrap_or("")),
            object: number(words.next().unwrap_or("")),
            size: 1,
        })?;
    }
    Ok(pools)
}

/// The model of a text: the instances, the pools, the fields of objects and the action types, with
/// `|` between them.
pub fn model_of(alloc: Global, names: &mut Names, text: &str) -> Result<Model, NoMemory> {
    let mut parts = text.split('|');
    let instances = instances(alloc, names, parts.next().unwrap_or(""))?;
    let pools = pools(alloc, names, parts.next().unwrap_or(""))?;
    let objects = objects(alloc, names, parts.next().unwrap_or(""))?;
    let actions = actions(alloc, names, parts.next().unwrap_or(""))?;
    Ok(Model {
        actions,
        objects,
        instances,
        pools,
        functions: Vec::new(alloc),
        served: Vec::new(alloc),
    })
}
