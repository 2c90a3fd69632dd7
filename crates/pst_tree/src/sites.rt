//! The actions of the sources by place: whether they are abstract, and what they do themselves.
ghost use Rattle.std.specs.Prelude.{◌≡◌, ◌++◌, false, IfOk, OnOk, map};
ghost use Rattle.std.specs.List.{find, flat_map, list_any};
ghost use Rattle.std.specs.HashMap.{get};
ghost use Rattle.pst_ast.specs.DeclarationView.{view_action, view_action_part, view_component_part, view_item, view_unit};
ghost use Rattle.pst_tree.specs.declared.key.PlaceKey.{PlaceKey as Keyed};
ghost use Rattle.pst_tree.specs.Members.{same_key};
ghost use Rattle.pst_type_rules.specs.Sites.{action_of, actions, actions_in_item, actions_in_part};
ghost use Rattle.pst_tree.specs.InheritedFound;
ghost use Rattle.pst_tree.specs.InheritedFound.{is_activity_part, is_body_part, is_site_at, or_site, site_of};

use crate::{PlaceKey, place_key};
use pst_ast::{ActionNode, ActionPart, ComponentPart, Declaration, Item, Unit};
use pst_base::{NoMemory, Place};
use std::alloc::Global;
use std::collections::HashMap;
use std::marker::Model;

/// What an action does.
#[derive(Clone, Copy, PartialEq, Eq)]
pub enum ContentSort {
    /// It has an activity.
    Activity,
    /// It has a body and no activity.
    Body,
}

/// An action as it is declared.
#[derive(Clone, Copy)]
pub struct ActionSite {
    /// The place of its name.
    pub place: Place,
    /// Whether it is abstract.
    pub is_abstract: bool,
    /// What it does itself; none where it has neither an activity nor a body.
    pub content: Option<ContentSort>,
}

/// Actions as they are declared, found by place.
///
/// Contracts see the list of them.
#[derive(Drop)]
pub struct Sites {
    found: Vec<ActionSite>,
    sites: HashMap<PlaceKey, ActionSite>,
}

impl Model for Sites {
    ghost use Rattle.std.specs.Prelude.{List};
    ghost use Rattle.pst_tree.specs.declared.sites.ActionSite.{ActionSite};
    ghost use Rattle.pst_tree.specs.KeptSites.{IsSites};

    ghost Value = { List ActionSite };

    ghost view = { λ s. s.found.items };

    ghost invariant = { IsSites };
}

// Whether one of the parts of an action is an activity.
fn has_activity(parts: &[ActionPart]) -> bool
    ensures { result ≡ list_any is_activity_part (map view_action_part parts.now) }
{
    for part in parts {
        if let ActionPart::Activity(_) = part {
            return true;
        }
    }
    false
}

// Whether one of the parts of an action is a body.
fn has_body(parts: &[ActionPart]) -> bool
    ensures { result ≡ list_any is_body_part (map view_action_part parts.now) }
{
    for part in parts {
        if let ActionPart::Body(_) = part {
            return true;
        }
    }
    false
}

// What an action with these parts does itself.
fn content_of(parts: &[ActionPart]) -> Option<ContentSort>
    ensures { result ≡ InheritedFound.content_sort (map view_action_part parts.now) }
{
    if has_activity(parts) {
        Some(ContentSort::Activity)
    } else if has_body(parts) {
        Some(ContentSort::Body)
    } else {
        None
    }
}

// An action as it is declared.
fn site(action: &ActionNode) -> ActionSite
    ensures { result ≡ site_of (action_of (view_action action.now)) }
{
    ActionSite {
        place: action.name.place,
        is_abstract: action.abstract_.is_some(),
        content: content_of(action.parts.as_slice()),
    }
}

// Adds the action in a part of a component.
fn add_part(found: &mut Vec<ActionSite>, part: &ComponentPart) -> Result<(), NoMemory>
    ensures { OnOk result (found.new.items ≡ found.old.items ++ map site_of (actions_in_part (view_component_part part.now))) }
{
    match part {
        ComponentPart::Action(action) => {
            found.push(site(action))?;
            Ok(())
        }
        _ => Ok(()),
    }
}

// Adds the actions in the parts of a component.
fn add_parts(found: &mut Vec<ActionSite>, parts: &[ComponentPart]) -> Result<(), NoMemory>
    ensures { OnOk result (found.new.items ≡ found.old.items ++ map site_of (flat_map actions_in_part (map view_component_part parts.now))) }
{
    for part in parts {
        add_part(found, part)?;
    }
    Ok(())
}

// Adds the actions in a part of a file.
fn add_item(found: &mut Vec<ActionSite>, item: &Item) -> Result<(), NoMemory>
    ensures { OnOk result (found.new.items ≡ found.old.items ++ map site_of (actions_in_item (view_item item.now))) }
{
    match item {
        Item::Component(component) => add_parts(found, component.parts.as_slice()),
        _ => Ok(()),
    }
}

// Adds the actions in the parts of a file.
fn add_items(found: &mut Vec<ActionSite>, items: &[Item]) -> Result<(), NoMemory>
    ensures { OnOk result (found.new.items ≡ found.old.items ++ map site_of (flat_map actions_in_item (map view_item items.now))) }
{
    for item in items {
        add_item(found, item)?;
    }
    Ok(())
}

// The actions of the sources, in the order of their text.
fn list_sites(alloc: Global, units: &[Unit]) -> Result<Vec<ActionSite>, NoMemory>
    ensures { IfOk result (λ found. found.items ≡ map site_of (actions (map view_unit units.now))) }
{
    let mut found = Vec::new(alloc);
    for unit in units {
        add_items(&mut found, unit.items.as_slice())?;
    }
    Ok(found)
}

// Keeps an action at its key, where nothing is there yet.
fn keep(
    sites: &mut HashMap<PlaceKey, ActionSite>,
    key: PlaceKey,
    site: ActionSite,
) -> Result<(), NoMemory>
    ensures { OnOk result ((q : Keyed) → get same_key sites.new q ≡ or_site (get same_key sites.old q) (same_key q key) site) }
{
    if !sites.contains_key(&key) {
        sites.insert(key, site)?;
    }
    Ok(())
}

// For each key the first action that is declared there.
fn sites_by_place(
    alloc: Global,
    found: &[ActionSite],
) -> Result<HashMap<PlaceKey, ActionSite>, NoMemory>
    ensures { IfOk result (λ m. (q : Keyed) → get same_key m q ≡ find (is_site_at q) found.now) }
{
    let mut sites = HashMap::new(alloc);
    for site in found {
        keep(&mut sites, place_key(site.place), *site)?;
    }
    Ok(sites)
}

// Whether an action is compound behind a base that does that.
fn is_compound_after(compound: bool, content: Option<ContentSort>) -> bool
    ensures { result ≡ InheritedFound.after compound content }
{
    match content {
        Some(ContentSort::Activity) => true,
        Some(ContentSort::Body) => false,
        None => compound,
    }
}

impl Sites {
    /// The actions of sources.
    pub fn new(alloc: Global, units: &[Unit]) -> Result<Sites, NoMemory>
        ensures { IfOk result (λ sites. sites ≡ map site_of (actions (map view_unit units.now))) }
    {
        let found = list_sites(alloc, units)?;
        let sites = sites_by_place(alloc, found.as_slice())?;
        Ok(Sites { found, sites })
    }

    /// The action whose name stands at a place.
    pub fn at(&self, place: Place) -> Option<ActionSite>
        ensures { result ≡ InheritedFound.site_at self.now place }
    {
        self.sites.get(&place_key(place)).copied()
    }

    /// Whether an action is declared there that isn't abstract.
    pub fn is_concrete(&self, action: &Declaration) -> bool
        ensures { result ≡ InheritedFound.is_concrete_by self.now action.now }
    {
        match self.at(action.name.place) {
            Some(site) => !site.is_abstract,
            None => false,
        }
    }

    // What an action does itself.
    fn content(&self, action: &Declaration) -> Option<ContentSort>
        ensures { result ≡ InheritedFound.own_sort self.now action.now }
    {
        match self.at(action.name.place) {
            Some(site) => site.content,
            None => None,
        }
    }

    /// Whether an action is compound, given the action with its bases, the furthest first.
    pub fn is_compound(&self, bases: &[Declaration]) -> bool
        ensures { result ≡ InheritedFound.compound_from self.now false bases.now }
    {
        let mut compound = false;
        for base in bases {
            compound = is_compound_after(compound, self.content(base));
        }
        compound
    }
}
