//! Running bodies that are written as numbers.
ghost use Rattle.std.specs.List.{list_all};
ghost use Rattle.std.specs.Prelude.{nat_lt, ◌≡◌, ◌<◌, true, All};
ghost use Rattle.pst_model.specs.ModelView.{view_model};
ghost use Rattle.pst_body.specs.Ran.{HasTypes};

use crate::reading::{Numbers, read_steps};
use pst_base::{Items, NameId, NoMemory};
use pst_body::{BodyEnd, run_body};
use pst_expr::{Domain, Span};
use pst_model::{ActionType, Content, Field, Function, Model, Part};
use pst_scen::{Act, Fill, Node, Scenario};
use pst_sound::sound;
use pst_target::{Call, ScriptTarget};
use std::alloc::Global;

const INT: Span = Span {
    low: -2147483648,
    high: 2147483647,
};

const BIT: Span = Span { low: 0, high: 1 };

fn function(
    alloc: Global,
    parameters: &[Span],
    answer: Option<Span>,
) -> Result<Function, NoMemory> {
    Ok(Function {
        name: NameId(1),
        parameters: Vec::from_slice(alloc, parameters)?,
        answer,
    })
}

/// `int step(int); void tell(bit); void put(bit, int); bit ask();`
pub fn functions(alloc: Global) -> Result<Vec<Function>, NoMemory> {
    let mut functions = Vec::new(alloc);
    functions.push(function(alloc, &[INT], Some(INT))?)?;
    functions.push(function(alloc, &[BIT], None)?)?;
    functions.push(function(alloc, &[BIT, INT], None)?)?;
    functions.push(function(alloc, &[], Some(BIT))?)?;
    Ok(functions)
}

// An action with a field from 0 to 7, whose body is written as numbers.
fn action(alloc: Global, numbers: &mut Numbers<'_>) -> Result<ActionType, NoMemory> {
    let body = read_steps(alloc, numbers, 8)?;
    let mut fields = Vec::new(alloc);
    let eight = Span { low: 0, high: 7 };
    fields.push(Field {
        name: NameId(2),
        domain: Domain::new(Vec::from_slice(alloc, &[eight])?),
        element: None,
    })?;
    Ok(ActionType {
        name: NameId(3),
        component: NameId(4),
        is_abstract: false,
        fields,
        references: Vec::new(alloc),
        claims: Vec::new(alloc),
        constraints: Vec::new(alloc),
        content: Content::Atomic(body),
    })
}

fn model(alloc: Global, numbers: &mut Numbers<'_>) -> Result<Model, NoMemory> {
    let mut actions = Vec::new(alloc);
    actions.push(action(alloc, numbers)?)?;
    let top = Part {
        name: NameId(5),
        component: NameId(4),
        parent: None,
        last: 0,
    };
    Ok(Model {
        actions,
        objects: Vec::new(alloc),
        instances: Vec::from_slice(alloc, &[top])?,
        pools: Vec::new(alloc),
        functions: functions(alloc)?,
        served: Vec::new(alloc),
    })
}

// The scenario of that action, whose field is 6.
fn scenario(alloc: Global) -> Result<Scenario, NoMemory> {
    let mut actions = Vec::new(alloc);
    actions.push(Act {
        action: 0,
        instance: 0,
        node: Some(0),
        fields: Items::from_vec(Vec::from_slice(alloc, &[6])?),
        references: Items::empty(alloc),
        claims: Items::empty(alloc),
    })?;
    let mut nodes = Vec::new(alloc);
    nodes.push(Node {
        parent: None,
        fill: Fill::Leaf { act: 0 },
    })?;
    Ok(Scenario {
        level: 0,
        nodes: Items::from_vec(nodes),
        actions: Items::from_vec(actions),
        firsts: Items::empty(alloc),
    })
}

// Whether each action's type is below a number.
fn are_below(acts: &[Act], count: usize) -> bool
    ensures { result ≡ list_all (λ act. nat_lt act.action count) acts.now }
{
    acts.iter().all(|act| (act.action as usize) < count)
}

/// Whether each action is of a type that there is.
pub fn has_types(model: &Model, scenario: &Scenario) -> bool
    ensures { result ≡ true → HasTypes (view_model model.now) scenario.now }
{
    let types = model.actions.as_slice();
    let acts = scenario.actions.as_slice();
    are_below(acts, types.len())
}

fn write_call(told: &mut Vec<i64>, call: &Call) -> Result<(), NoMemory> {
    told.push(i64::from(call.function))?;
    for number in call.arguments.as_slice() {
        told.push(*number)?;
    }
    told.push(call.answer)?;
    Ok(())
}

// How a body ended: 0, 1 and the number of the call that failed, 2 and the kind of the trap, or 3.
fn write_end(told: &mut Vec<i64>, end: Result<(), BodyEnd>) -> Result<(), NoMemory> {
    let (code, number) = match end {
        Ok(()) => (0, 0),
        Err(BodyEnd::Fault { call }) => (1, i64::from(call)),
        Err(BodyEnd::Trap { kind }) => (2, i64::from(kind)),
        Err(BodyEnd::NoMemory) => (3, 0),
    };
    told.push(code)?;
    told.push(number)?;
    Ok(())
}

/// Runs a body so many times on a lane whose functions answer 5, 7, 7 and 2, and whose call of that number fails. It gives
/// how the body ended the last time, and then each call with its arguments and its answer; nothing for a model that isn't
/// sound.
pub fn told(
    alloc: Global,
    times: u32,
    failing: u64,
    body: &'static [i64],
) -> Result<Option<Vec<i64>>, NoMemory> {
    let mut numbers = Numbers { left: body };
    let model = model(alloc, &mut numbers)?;
    let scenario = scenario(alloc)?;
    if !sound(&model) || !has_types(&model, &scenario) || scenario.actions.as_slice().is_empty() {
        return Ok(None);
    }
    let answers = Vec::from_slice(alloc, &[5, 7, 7, 2])?;
    let mut lane = ScriptTarget::new(alloc, answers, failing);
    let mut end = Ok(());
    for _ in 0..times {
        end = run_body(alloc, &model, &scenario, 0, &mut lane);
    }
    let mut told = Vec::new(alloc);
    write_end(&mut told, end)?;
    for call in lane.calls() {
        write_call(&mut told, call)?;
    }
    Ok(Some(told))
}
