//! The types of a model as texts.
use crate::activities::write_activity;
use crate::bodies::write_statements;
use crate::expressions::{write_constraints, write_spans};
use crate::page::Page;
use pst_base::{NameId, Names};
use pst_model::{ActionType, Claim, Content, Field, ObjectKind, ObjectType, Reference};

/// A name between two texts, or `?` where there is none.
pub fn write_name(page: &mut Page, before: &str, names: &Names, id: NameId, behind: &str) {
    page.put(before);
    if id.0 < names.len() {
        page.put(names.text(id));
    } else {
        page.put("?");
    }
    page.put(behind);
}

// Fields, each with its domain; `#k` stands behind the name of element k.
fn write_fields(page: &mut Page, names: &Names, fields: &[Field]) {
    for field in fields {
        write_name(page, " ", names, field.name, "");
        if let Some(element) = field.element {
            page.number("#", element);
        }
        write_spans(page, field.domain.spans());
    }
}

// References: `>` stands behind one that puts out, `<` behind one that takes in.
fn write_references(page: &mut Page, names: &Names, references: &[Reference]) {
    for reference in references {
        let word = if reference.output { ">" } else { "<" };
        write_name(page, " ", names, reference.name, word);
        page.number("", reference.object);
    }
}

// Claims: `!` stands behind one that locks, `?` behind one that shares.
fn write_claims(page: &mut Page, names: &Names, claims: &[Claim]) {
    for claim in claims {
        let word = if claim.lock { "!" } else { "?" };
        write_name(page, " ", names, claim.name, word);
        page.number("", claim.object);
    }
}

// What an action does; nothing for an empty body.
fn write_content(page: &mut Page, content: &Content) {
    match content {
        Content::Compound(activity) => write_activity(page, activity),
        Content::Atomic(steps) => {
            if !steps.is_empty() {
                page.put(" ");
                write_statements(steps.as_slice(), page);
            }
        }
    }
}

/// An action type: its component and name, fields, references, claims, constraints and content.
pub fn write_action(page: &mut Page, names: &Names, action: &ActionType) {
    page.put(if action.is_abstract { "abstract " } else { "" });
    write_name(page, "", names, action.component, "::");
    write_name(page, "", names, action.name, "");
    write_fields(page, names, action.fields.as_slice());
    write_references(page, names, action.references.as_slice());
    write_claims(page, names, action.claims.as_slice());
    write_constraints(page, action.constraints.as_slice());
    write_content(page, &action.content);
}

// The word of a kind.
fn kind_word(kind: ObjectKind) -> &'static str {
    match kind {
        ObjectKind::Buffer => "buffer ",
        ObjectKind::Stream => "stream ",
        ObjectKind::State => "state ",
        ObjectKind::Resource => "resource ",
    }
}

/// An object type: its kind and name, fields and constraints.
pub fn write_object(page: &mut Page, names: &Names, object: &ObjectType) {
    write_name(page, kind_word(object.kind), names, object.name, "");
    write_fields(page, names, object.fields.as_slice());
    write_constraints(page, object.constraints.as_slice());
}
