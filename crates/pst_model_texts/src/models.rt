//! Models as texts.
use crate::expressions::{write_span, write_spans};
use crate::page::Page;
use crate::types::{write_action, write_name, write_object};
use pst_base::Names;
use pst_model::{ActionType, Function, Model, ObjectType, Part, Pool, Serve};
use std::alloc::{AllocError, Global};

// The action types.
fn write_actions(page: &mut Page, names: &Names, all: &[ActionType]) {
    for action in all {
        page.put(" | ");
        write_action(page, names, action);
    }
}

// The object types.
fn write_objects(page: &mut Page, names: &Names, all: &[ObjectType]) {
    for object in all {
        page.put(" | ");
        write_object(page, names, object);
    }
}

// The component instances: name, type, the instance that it stands in, and the last one below it.
fn write_parts(page: &mut Page, names: &Names, all: &[Part]) {
    for part in all {
        write_name(page, " | part ", names, part.name, " ");
        write_name(page, "", names, part.component, " ");
        match part.parent {
            None => page.put("-"),
            Some(parent) => page.number("", parent),
        }
        page.number(" ", part.last);
    }
}

// The pools: instance, name, object type and size.
fn write_pools(page: &mut Page, names: &Names, all: &[Pool]) {
    for pool in all {
        page.number(" | pool ", pool.instance);
        write_name(page, " ", names, pool.name, "");
        page.number(" ", pool.object);
        page.number(" ", pool.size);
    }
}

// The functions: name, the ranges of the parameters, and the range of the answer.
fn write_functions(page: &mut Page, names: &Names, all: &[Function]) {
    for function in all {
        write_name(page, " | function ", names, function.name, "");
        write_spans(page, function.parameters.as_slice());
        if let Some(answer) = function.answer {
            write_span(page, " -> ", answer);
        }
    }
}

// What is served: action type, instance, reference and pool.
fn write_serves(page: &mut Page, all: &[Serve]) {
    for serve in all {
        page.number(" | serve ", serve.action);
        page.number(" ", serve.instance);
        page.number(" ", serve.reference);
        page.number(" ", serve.pool);
    }
}

/// A model: the number of the root's action type, and then action types, object types, component
/// instances, pools, functions and what is served, each behind `|`.
pub fn model_text(
    alloc: Global,
    names: &Names,
    model: &Model,
    root: u32,
) -> Result<String, AllocError> {
    let mut page = Page::new(alloc);
    page.number("", root);
    write_actions(&mut page, names, model.actions.as_slice());
    write_objects(&mut page, names, model.objects.as_slice());
    write_parts(&mut page, names, model.instances.as_slice());
    write_pools(&mut page, names, model.pools.as_slice());
    write_functions(&mut page, names, model.functions.as_slice());
    write_serves(&mut page, model.served.as_slice());
    page.text()
}
