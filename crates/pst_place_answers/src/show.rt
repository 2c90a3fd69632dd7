//! Answers with their texts.
ghost use Rattle.std.specs.Prelude.{◌≡◌, ◌++◌, ◌<◌, ◌≤◌, ◌+◌, ◌^◌, length, string_bytes, IfOk, OnOk};
ghost use Rattle.pst_model.specs.ModelView.{view_model};
ghost use Rattle.pst_scen.specs.Plans.{IsPlanOf};
ghost use Rattle.pst_trace_texts.specs.Header.{header_text};
ghost use Rattle.pst_place_answers.specs.Texts as texts;
ghost use Rattle.pst_addr.specs.Places.{AreAsks};
ghost use Rattle.pst_place_answers.specs.Shown.{Says, ShowsAsks, ShowsPlaces};

use crate::answer::{PlaceAnswer, ShownPlaces};
use crate::lines::{write_count, write_places};
use pst_addr::{Ask, PlaceEnd, Space, asks_are_of_plan, asks_of, place};
use pst_base::{Names, NoMemory};
use pst_model::Model;
use pst_scen::{Plan, Scenario};
use pst_trace_writer::header;
use std::alloc::Global;

// The header of the scenario.
fn header_of(
    alloc: Global,
    names: &Names,
    model: &Model,
    scenario: &Scenario,
) -> Result<String, NoMemory>
    ensures { IfOk result (λ text. string_bytes text ≡ header_text 2 names.now (view_model model.now) scenario.now) }
{
    let found = header(alloc, names, model, scenario, 2)?;
    match found {
        Some(text) => Ok(text),
        None => unreachable!(),
    }
}

// The header of the scenario, a line for each ask, and their number.
fn placed_text(
    alloc: Global,
    names: &Names,
    model: &Model,
    scenario: &Scenario,
    asks: &[Ask],
    places: &[u64],
) -> Result<String, NoMemory>
    requires { length asks.now ≤ length places.now }
    ensures { IfOk result (λ text. string_bytes text ≡ texts.placed_text names.now (view_model model.now) scenario.now asks.now places.now) }
{
    let mut text = header_of(alloc, names, model, scenario)?;
    write_places(&mut text, asks, places)?;
    write_count(&mut text, asks.len())?;
    Ok(text)
}

// What is shown where each ask has an address.
fn show_placed(
    alloc: Global,
    names: &Names,
    model: &Model,
    scenario: &Scenario,
    asks: &[Ask],
    places: &[u64],
) -> Result<ShownPlaces, NoMemory>
    requires many { length asks.now ≤ length places.now }
    requires few { length asks.now < 2 ^ 32 }
    ensures { IfOk result (Says (PlaceAnswer.Placed (length asks.now)) (texts.placed_text names.now (view_model model.now) scenario.now asks.now places.now)) }
{
    let text = placed_text(alloc, names, model, scenario, asks, places)?;
    Ok(ShownPlaces {
        answer: PlaceAnswer::Placed {
            asks: asks.len() as u32,
        },
        text,
    })
}

// What is shown where an ask of the action has no address.
fn show_no_room(alloc: Global, action: u32) -> Result<ShownPlaces, NoMemory>
    ensures { IfOk result (Says (PlaceAnswer.NoRoom action) (texts.no_room_text action)) }
{
    let text = format!(in alloc; "noroom {action}\n")?;
    Ok(ShownPlaces {
        answer: PlaceAnswer::NoRoom { action },
        text,
    })
}

// Places asks in the space, and shows their addresses, or the first action without one.
fn show_asks(
    alloc: Global,
    names: &Names,
    model: &Model,
    scenario: &Scenario,
    plan: &Plan,
    asks: &[Ask],
    space: Space,
) -> Result<ShownPlaces, NoMemory>
    requires asks { AreAsks plan.now asks.now }
    requires few { length asks.now < 2 ^ 32 }
    requires space { space.base + space.size ≤ 2 ^ 63 }
    ensures { IfOk result (λ shown. ShowsAsks names.now (view_model model.now) scenario.now plan.now space asks.now shown.answer (string_bytes shown.text)) }
{
    match place(alloc, plan, asks, space) {
        Ok(places) => show_placed(alloc, names, model, scenario, asks, &places),
        Err(PlaceEnd::NoRoom { ask }) => show_no_room(alloc, asks[ask as usize].action),
        Err(PlaceEnd::NoMemory) => Err(NoMemory),
    }
}

/// Places what the scenario's actions ask for in the space, and shows the addresses, or the first
/// action without one.
pub fn show_places(
    alloc: Global,
    names: &Names,
    model: &Model,
    scenario: &Scenario,
    plan: &Plan,
    space: Space,
) -> Result<ShownPlaces, NoMemory>
    requires planned { IsPlanOf scenario.now plan.now }
    requires small { length scenario.now.actions < 2 ^ 32 }
    requires space { space.base + space.size ≤ 2 ^ 63 }
    ensures { IfOk result (λ shown. ShowsPlaces names.now (view_model model.now) scenario.now plan.now space shown.answer (string_bytes shown.text)) }
{
    asks_are_of_plan();
    let asks = asks_of(alloc, names, model, scenario)?;
    show_asks(alloc, names, model, scenario, plan, &asks, space)
}
