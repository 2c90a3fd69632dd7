//! The numbers of blanks, and what slots are written as.
ghost use Rattle.std.specs.Prelude.{◌≡◌, ℕ, IfOk, IfSome, Some, map, slice_get};
ghost use Rattle.pst_model.specs.ConstraintTree.{view_slot};
ghost use Rattle.pst_model.specs.ModelView.{view_model};
ghost use Rattle.pst_blanks.specs.Blanks.{read_blank, blank_of};
ghost use Rattle.pst_known.specs.Known.{seen};
ghost use Rattle.pst_constraint_sites.specs.Senses.{InBlank, sense_at};
ghost use Rattle.pst_constraint_sites.specs.Views.{view_site, sense_of};
ghost use Rattle.pst_written_constraints.specs.Terms.{IsTermOf, AreTermsOf};

use crate::term::Term;
use pst_base::NoMemory;
use pst_blanks::{Blank, Place};
use pst_constraint_sites::{Meaning, Site, meaning_at};
use pst_known::Scene;
use pst_model::Slot;
use std::alloc::Global;

// What the blanks of a scenario are in order of.
fn order_of(blank: Blank) -> (u32, u32, u32, u32, u32) {
    match blank {
        Blank::Instance { act, claim } => (0, act, 0, claim, 0),
        Blank::OfFirst { pool, field } => (1, pool, 0, field, 0),
        Blank::OfAct { act, field } => (2, act, 0, 0, field),
        Blank::OfOutput {
            act,
            reference,
            field,
        } => (2, act, 1, reference, field),
        Blank::OfClaim { act, claim, field } => (2, act, 2, claim, field),
    }
}

// Where the blank stands among all, if it is there: by halving.
fn place_of(places: &[Place], blank: Blank) -> usize {
    let mut low = 0;
    let mut high = places.len();
    for _ in 0..64 {
        if low >= high {
            return low;
        }
        let middle = low + (high - low) / 2;
        let Some(place) = places.get(middle) else {
            return low;
        };
        if order_of(place.blank) < order_of(blank) {
            low = middle + 1;
        } else {
            high = middle;
        }
    }
    low
}

// The number of a blank among all.
fn number_of(places: &[Place], blank: Blank) -> Option<u32>
    ensures { IfSome result (λ n. slice_get (map blank_of places.now) n ≡ Some (read_blank blank)) }
{
    let number = place_of(places, blank);
    let Ok(short) = u32::try_from(number) else {
        return None;
    };
    match places.get(number) {
        None => None,
        Some(place) => {
            if place.blank == blank {
                Some(short)
            } else {
                None
            }
        }
    }
}

// What a slot is written as that stands in a blank.
fn variable_of(places: &[Place], blank: Blank) -> Term
    ensures { IsTermOf (map blank_of places.now) (InBlank (read_blank blank)) result }
{
    match number_of(places, blank) {
        None => Term::Unknown,
        Some(number) => Term::Variable(number),
    }
}

// What a slot is written as.
fn term_of(places: &[Place], meaning: Meaning) -> Term
    ensures { IsTermOf (map blank_of places.now) (sense_of meaning) result }
{
    match meaning {
        Meaning::Value(value) => Term::Number(value),
        Meaning::Blank(blank) => variable_of(places, blank),
        Meaning::Nothing => Term::Nothing,
        Meaning::Untold => Term::Unknown,
    }
}

/// What the slots of a constraint are written as at a site.
pub(crate) fn terms_of(
    alloc: Global,
    scene: &Scene<'_>,
    places: &[Place],
    site: &Site,
    slots: &[Slot],
) -> Result<Vec<Term>, NoMemory>
    ensures { IfOk result (λ terms. AreTermsOf (map blank_of places.now) (sense_at (view_model scene.now.model.now) (seen scene.now) (view_site site.now)) (map view_slot slots.now) terms.items) }
{
    let mut terms = Vec::new(alloc);
    for slot in slots {
        let meaning = meaning_at(alloc, scene, site, slot)?;
        terms.push(term_of(places, meaning))?;
    }
    Ok(terms)
}
