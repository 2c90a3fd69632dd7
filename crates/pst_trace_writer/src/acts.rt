//! Lines of actions.
ghost use Rattle.std.specs.Prelude.{◌≡◌, ◌++◌, [], codes, decimal, map, string_bytes, slice_get, OnOk};
ghost use Rattle.pst_model.specs.ModelView.{view_model};
ghost use Rattle.pst_trace_texts.specs.Lines.{each_from};
ghost use Rattle.pst_trace_texts.specs.Named.{paths as all_paths, action_fields};
ghost use Rattle.pst_trace_texts.specs.Header.{values_text, used_text, supplier_text, link_text, reference_text, claim_text, origin_text, action_line};

use crate::lookups::{
    act_reference, claim_fields, claim_in, claim_name, fields_of, reference_fields, reference_in,
    reference_name,
};
use crate::nodes::write_used;
use crate::values::write_values;
use pst_base::{Names, NoMemory};
use pst_model::Model;
use pst_scen::{Act, Claimed, Filled, Flow, Link, Scenario};

/// Adds the reference that another one is linked to.
fn write_supplier(
    text: &mut String,
    names: &Names,
    model: &Model,
    scenario: &Scenario,
    own: &str,
    link: Link,
) -> Result<(), NoMemory>
    ensures { OnOk result (string_bytes text.new ≡ string_bytes text.old ++ supplier_text names.now (view_model model.now) scenario.now own.now link) }
{
    match link {
        Link::Nothing => Ok(()),
        Link::Initial => Ok(write!(text, " {own}<initial")?),
        Link::Act { act, reference } => {
            let supplier = reference_name(names, act_reference(model, scenario, act, reference));
            Ok(write!(text, " {own}<{act}.{supplier}")?)
        }
    }
}

/// Adds what a reference is linked to; nothing for the output of a buffer or a stream.
fn write_link(
    text: &mut String,
    names: &Names,
    model: &Model,
    scenario: &Scenario,
    own: &str,
    flow: Flow,
    link: Link,
) -> Result<(), NoMemory>
    ensures { OnOk result (string_bytes text.new ≡ string_bytes text.old ++ link_text names.now (view_model model.now) scenario.now own.now flow link) }
{
    match flow {
        Flow::BufferOut | Flow::StreamOut => Ok(()),
        Flow::BufferIn | Flow::StreamIn | Flow::StateIn | Flow::StateOut => {
            write_supplier(text, names, model, scenario, own, link)
        }
    }
}

/// Adds a reference of an action of that type: the values of its object, and its link.
fn write_reference(
    text: &mut String,
    names: &Names,
    model: &Model,
    scenario: &Scenario,
    action: u32,
    number: usize,
    filled: &Filled,
) -> Result<(), NoMemory>
    ensures { OnOk result (string_bytes text.new ≡ string_bytes text.old ++ reference_text names.now (view_model model.now) scenario.now (slice_get (view_model model.now).actions action) number filled.now) }
{
    let reference = reference_in(model, action, number);
    let own = reference_name(names, reference);
    let fields = reference_fields(model, reference);
    write_values(text, names, own, ".", fields, filled.values.as_slice())?;
    write_link(text, names, model, scenario, own, filled.flow, filled.link)
}

/// Adds the references of an action of that type.
fn write_references(
    text: &mut String,
    names: &Names,
    model: &Model,
    scenario: &Scenario,
    action: u32,
    references: &[Filled],
) -> Result<(), NoMemory>
    ensures { OnOk result (string_bytes text.new ≡ string_bytes text.old ++ each_from (reference_text names.now (view_model model.now) scenario.now (slice_get (view_model model.now).actions action)) 0 references.now) }
{
    for (number, filled) in references.iter().enumerate() {
        write_reference(text, names, model, scenario, action, number, filled)?;
    }
    Ok(())
}

/// Adds a claim of an action of that type: the instance, and the values of its object.
fn write_claim(
    text: &mut String,
    names: &Names,
    model: &Model,
    action: u32,
    number: usize,
    claimed: &Claimed,
) -> Result<(), NoMemory>
    ensures { OnOk result (string_bytes text.new ≡ string_bytes text.old ++ claim_text names.now (view_model model.now) (slice_get (view_model model.now).actions action) number claimed.now) }
{
    let claim = claim_in(model, action, number);
    let own = claim_name(names, claim);
    let instance = claimed.instance;
    write!(text, " {own}[{instance}]")?;
    write_values(
        text,
        names,
        own,
        ".",
        claim_fields(model, claim),
        claimed.values.as_slice(),
    )
}

/// Adds the claims of an action of that type.
fn write_claims(
    text: &mut String,
    names: &Names,
    model: &Model,
    action: u32,
    claims: &[Claimed],
) -> Result<(), NoMemory>
    ensures { OnOk result (string_bytes text.new ≡ string_bytes text.old ++ each_from (claim_text names.now (view_model model.now) (slice_get (view_model model.now).actions action)) 0 claims.now) }
{
    for (number, claimed) in claims.iter().enumerate() {
        write_claim(text, names, model, action, number, claimed)?;
    }
    Ok(())
}

/// Whether an action is one of a leaf, or inferred.
fn origin(node: Option<u32>) -> &'static str
    ensures { result.now ≡ origin_text node }
{
    match node {
        Some(_) => " leaf",
        None => " inferred",
    }
}

/// Adds what stands behind the number of an action.
fn write_used_act(
    text: &mut String,
    names: &Names,
    model: &Model,
    paths: &[String],
    number: usize,
    act: &Act,
) -> Result<(), NoMemory>
    requires { map string_bytes paths.now ≡ all_paths names.now (view_model model.now) }
    ensures { OnOk result (string_bytes text.new ≡ string_bytes text.old ++ (codes "action " ++ decimal number ++ codes " " ++ used_text names.now (view_model model.now) act.now.instance act.now.action ++ origin_text act.now.node)) }
{
    write!(text, "action {number} ")?;
    write_used(text, names, model, paths, act.instance, act.action)?;
    Ok(text.push_str(origin(act.node))?)
}

/// Adds the line of an action up to the values of its own fields.
fn write_own(
    text: &mut String,
    names: &Names,
    model: &Model,
    paths: &[String],
    number: usize,
    act: &Act,
) -> Result<(), NoMemory>
    requires { map string_bytes paths.now ≡ all_paths names.now (view_model model.now) }
    ensures { OnOk result (string_bytes text.new ≡ string_bytes text.old ++ ((codes "action " ++ decimal number ++ codes " " ++ used_text names.now (view_model model.now) act.now.instance act.now.action ++ origin_text act.now.node) ++ values_text names.now [] (action_fields (slice_get (view_model model.now).actions act.now.action)) act.now.fields)) }
{
    write_used_act(text, names, model, paths, number, act)?;
    write_values(
        text,
        names,
        "",
        "",
        fields_of(model, act.action),
        act.fields.as_slice(),
    )
}

/// Adds the references and the claims of an action.
fn write_parts(
    text: &mut String,
    names: &Names,
    model: &Model,
    scenario: &Scenario,
    act: &Act,
) -> Result<(), NoMemory>
    ensures { OnOk result (string_bytes text.new ≡ string_bytes text.old ++ (each_from (reference_text names.now (view_model model.now) scenario.now (slice_get (view_model model.now).actions act.now.action)) 0 act.now.references ++ each_from (claim_text names.now (view_model model.now) (slice_get (view_model model.now).actions act.now.action)) 0 act.now.claims)) }
{
    write_references(
        text,
        names,
        model,
        scenario,
        act.action,
        act.references.as_slice(),
    )?;
    write_claims(text, names, model, act.action, act.claims.as_slice())
}

/// Adds the line of an action.
fn write_act(
    text: &mut String,
    names: &Names,
    model: &Model,
    scenario: &Scenario,
    paths: &[String],
    number: usize,
    act: &Act,
) -> Result<(), NoMemory>
    requires { map string_bytes paths.now ≡ all_paths names.now (view_model model.now) }
    ensures { OnOk result (string_bytes text.new ≡ string_bytes text.old ++ action_line names.now (view_model model.now) scenario.now number act.now) }
{
    write_own(text, names, model, paths, number, act)?;
    write_parts(text, names, model, scenario, act)?;
    Ok(text.push_str("\n")?)
}

/// Adds a line for each action.
pub(crate) fn write_acts(
    text: &mut String,
    names: &Names,
    model: &Model,
    scenario: &Scenario,
    paths: &[String],
) -> Result<(), NoMemory>
    requires { map string_bytes paths.now ≡ all_paths names.now (view_model model.now) }
    ensures { OnOk result (string_bytes text.new ≡ string_bytes text.old ++ each_from (action_line names.now (view_model model.now) scenario.now) 0 scenario.now.actions) }
{
    for (number, act) in scenario.actions.as_slice().iter().enumerate() {
        write_act(text, names, model, scenario, paths, number, act)?;
    }
    Ok(())
}
