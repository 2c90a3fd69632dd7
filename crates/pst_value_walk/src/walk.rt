//! Walks through the choices of claimed instances and values.
ghost use Rattle.std.specs.Prelude.{◌≡◌, ℕ, ◌+◌, ◌<◌, IfOk, IfSome, OnOk, OnErr, length, map, slice_get, nat_lt, if◌then◌else◌, []};
ghost use Rattle.pst_model.specs.ModelView.{view_model};
ghost use Rattle.pst_scen.specs.declared.next.Next.TheVariants as next;
ghost use Rattle.pst_legal.specs.Blanks.{options};
ghost use Rattle.pst_legal.specs.Reading.{option_at};
ghost use Rattle.pst_blanks.specs.Blanks.{blank_of};
ghost use Rattle.pst_blanks.specs.Placed.{IsPlaced, ArePlaced, AreRising, Keeps};
ghost use Rattle.pst_value_walk.specs.Walks.{Kept, with_choice, answer, next_of, IfRead, HasDigit, blank_at, IsBlank, IsFilled};
ghost use Rattle.pst_value_walk.specs.Choices.{cleared_at, IsChoice, HasOption, shown_by, option_of, IsNamed, IsValueOf, HasDomainOf, IsDomainAt};

use pst_base::NoMemory;
use pst_blanks::{Blank, Place, begin, clear, domain, fill, options, value_of};
use pst_expr::Domain;
use pst_model::Model;
use pst_rng::start;
use pst_scen::{Next, Scenario};
use std::alloc::Global;

// The option that a digit names at a place with so many options.
fn option_from(start: u64, count: u64, digit: u64) -> u64
    requires { 0 < count }
    ensures option { result ≡ option_at start count digit }
    ensures in_range { result < count }
{
    ((u128::from(start) + u128::from(digit)) % u128::from(count)) as u64
}

// The number of the place behind so many choices.
fn place_after(place: u64, made: usize) -> Result<u64, NoMemory>
    ensures { IfOk result (λ p. p ≡ place + made) }
{
    match place.checked_add(made as u64) {
        Some(place) => Ok(place),
        None => Err(NoMemory),
    }
}

// The place of that number.
fn place_at(places: &[Place], number: usize) -> Option<Place>
    ensures { result ≡ slice_get places.now number }
{
    places.get(number).copied()
}

// A place with so many options, or a dead end where there is none.
fn shown(count: u64) -> Next
    ensures { result ≡ (if nat_lt 0 count then next.Options count else next.Dead) }
{
    if count == 0 {
        return Next::Dead;
    }
    Next::Options(count)
}

// What a walk stands at behind so many choices.
fn next_at(model: &Model, scenario: &Scenario, places: &[Place], made: usize) -> Next
    requires { ArePlaced (view_model model.now) scenario.now places.now }
    ensures { result ≡ shown_by (view_model model.now) scenario.now (slice_get (map blank_of places.now) made) }
{
    match place_at(places, made) {
        None => Next::Whole,
        Some(place) => shown(options(model, scenario, &place)),
    }
}

// The blank of that number.
fn blank_of(places: &[Place], number: usize) -> Option<Blank>
    ensures { IsBlank result (slice_get (map blank_of places.now) number) }
{
    match places.get(number) {
        Some(place) => Some(place.blank),
        None => None,
    }
}

// The option that a digit names of a blank.
fn option_of(
    model: &Model,
    scenario: &Scenario,
    place: &Place,
    seed: u64,
    number: u64,
    digit: u64,
) -> u64
    requires placed { IsPlaced (view_model model.now) scenario.now place.now }
    requires below { digit < options (view_model model.now) scenario.now.actions (blank_of place.now) }
    ensures option { result ≡ option_of (view_model model.now) seed number scenario.now (blank_of place.now) digit }
    ensures in_range { result < options (view_model model.now) scenario.now.actions (blank_of place.now) }
{
    let count = options(model, scenario, place);
    option_from(start(seed, number, count), count, digit)
}

// The value of the option that a digit names of the blank of that number.
fn value_at(
    model: &Model,
    scenario: &Scenario,
    places: &[Place],
    seed: u64,
    place: u64,
    made: usize,
    digit: u64,
) -> Option<i64>
    requires placed { ArePlaced (view_model model.now) scenario.now places.now }
    requires digit { HasOption (view_model model.now) (map blank_of places.now) made digit scenario.now }
    ensures { IfSome result (λ v. IsNamed (view_model model.now) seed place (map blank_of places.now) made digit scenario.now v) }
{
    let Some(at) = place_at(places, made) else {
        return None;
    };
    let Ok(number) = place_after(place, made) else {
        return None;
    };
    let option = option_of(model, scenario, &at, seed, number, digit);
    value_of(model, scenario, &at, option)
}

// The values that the blank of that number may have, and nothing for the instance of a claim.
fn domain_at<'a>(
    model: &'a Model,
    scenario: &Scenario,
    places: &[Place],
    made: usize,
) -> Option<&'a Domain>
    ensures { IfSome result (λ domain. HasDomainOf (view_model model.now) (map blank_of places.now) made scenario.now domain.now) }
{
    let Some(at) = place_at(places, made) else {
        return None;
    };
    domain(model, scenario, &at)
}

// Fills the blank of that number with the option that a digit names.
fn put(
    alloc: Global,
    model: &Model,
    scenario: &mut Scenario,
    places: &[Place],
    seed: u64,
    place: u64,
    made: usize,
    digit: u64,
) -> Result<(), NoMemory>
    requires placed { ArePlaced (view_model model.now) scenario.old places.now }
    requires rising { AreRising scenario.old }
    requires digit { HasOption (view_model model.now) (map blank_of places.now) made digit scenario.old }
    ensures ok { OnOk result (IsChoice (view_model model.now) seed place (map blank_of places.now) made digit scenario.old scenario.new) }
    ensures back { OnOk result (scenario.old ≡ cleared_at (slice_get (map blank_of places.now) made) scenario.new) }
    ensures keeps { Keeps (view_model model.now) scenario.old scenario.new }
    ensures err { OnErr result (scenario.new ≡ scenario.old) }
{
    let Some(at) = place_at(places, made) else {
        return Err(NoMemory);
    };
    let number = place_after(place, made)?;
    let option = option_of(model, scenario, &at, seed, number, digit);
    fill(alloc, model, scenario, &at, option)
}

// Clears the blank of that number.
fn take(alloc: Global, model: &Model, scenario: &mut Scenario, places: &[Place], number: usize)
    requires placed { ArePlaced (view_model model.now) scenario.old places.now }
    requires rising { AreRising scenario.old }
    ensures cleared { scenario.new ≡ cleared_at (slice_get (map blank_of places.now) number) scenario.old }
    ensures keeps { Keeps (view_model model.now) scenario.old scenario.new }
{
    match place_at(places, number) {
        None => {}
        Some(at) => clear(alloc, model, scenario, &at),
    }
}

/// A walk through the lists of choices that give the claims their instances, and then first objects,
/// actions, what they write and what they claim their values, behind a list that gives all needs
/// their sources. Contracts see its model, the scenario that the sources came to, its seed, the
/// number of its first place and its choices.
#[derive(Drop)]
pub struct ValueWalk<'a> {
    alloc: Global,
    model: &'a Model,
    seed: u64,
    place: u64,
    places: Vec<Place>,
    made: Vec<u64>,
    scenario: Scenario,
}

impl<'a> std::marker::Model for ValueWalk<'a> {
    ghost use Rattle.pst_value_walk.specs.Walks.{Kept};
    ghost use Rattle.pst_value_walk.specs.Made.{kept_by, IsKept};
    ghost use Rattle.std.specs.Coded.{codes};
    ghost use Rattle.pst_model.specs.contracts.activity.Step as the_step;
    ghost use Rattle.pst_model.specs.contracts.body.BodyStep as the_body_step;
    ghost use Rattle.pst_model.specs.contracts.constraint.Slot as the_slot;
    ghost use Rattle.pst_expr.specs.contracts.tree.Expr as the_expr;

    ghost Value = { Kept };

    ghost coded = { Prim.hlevel (codes, the_step.the_row.coded, the_body_step.the_row.coded, the_slot.the_row.coded, the_expr.the_row.coded) };

    ghost view = { kept_by };

    ghost invariant = { IsKept };
}

impl<'a> ValueWalk<'a> {
    /// The walk without a choice. `linked` is the scenario that the sources came to; its first
    /// objects are made anew. `place` is how many choices led there. All blanks are listed here, in
    /// time that grows with their number.
    pub fn new(
        alloc: Global,
        model: &'a Model,
        linked: Scenario,
        seed: u64,
        place: u64,
    ) -> Result<ValueWalk<'a>, NoMemory>
        ensures { IfOk result (λ w. w ≡ record { model = model.now; linked = record linked { firsts = [] }; seed = seed; place = place; choices = [] }) }
    {
        let mut scenario = linked;
        let places = begin(alloc, model, &mut scenario)?;
        Ok(ValueWalk {
            alloc,
            model,
            seed,
            place,
            places,
            made: Vec::new(alloc),
            scenario,
        })
    }

    /// What the walk stands at: a place with so many options, the end, or a dead end.
    pub fn next(&self) -> Next
        ensures { result ≡ next_of (answer self.now) }
    {
        next_at(self.model, &self.scenario, &self.places, self.made.len())
    }

    /// The scenario so far.
    pub fn scenario(&self) -> &Scenario
        ensures { IfRead (answer self.now) (λ s. result.now ≡ s) }
    {
        &self.scenario
    }

    /// The blank that the next choice fills, and nothing at the end.
    pub fn blank(&self) -> Option<Blank>
        ensures { IsBlank result (blank_at self.now (length self.now.choices)) }
    {
        blank_of(&self.places, self.made.len())
    }

    /// The blank that the last choice filled, and nothing where there is no choice.
    pub fn filled(&self) -> Option<Blank>
        ensures { IsFilled self.now result }
    {
        if self.made.is_empty() {
            return None;
        }
        blank_of(&self.places, self.made.len() - 1)
    }

    /// The value of the option that a digit names of the blank at hand: of a claim the number of the instance.
    /// Nothing where that is no value.
    pub fn value(&self, digit: u64) -> Option<i64>
        requires { HasDigit (answer self.now) digit }
        ensures { IfSome result (λ v. IsValueOf self.now digit v) }
    {
        value_at(
            self.model,
            &self.scenario,
            &self.places,
            self.seed,
            self.place,
            self.made.len(),
            digit,
        )
    }

    /// The values that the blank at hand may have, in ascending order. Nothing for the instance of a claim, and at the
    /// end.
    pub fn domain(&self) -> Option<&'a Domain>
        ensures { IfSome result (λ domain. IsDomainAt self.now domain.now) }
    {
        domain_at(self.model, &self.scenario, &self.places, self.made.len())
    }

    /// Makes a choice at the place where the walk stands.
    pub fn choose(&mut self, digit: u64) -> Result<(), NoMemory>
        requires { HasDigit (answer self.old) digit }
        ensures ok { OnOk result (self.new ≡ with_choice self.old digit) }
        ensures err { OnErr result (self.new ≡ self.old) }
    {
        self.made.reserve(1)?;
        put(
            self.alloc,
            self.model,
            &mut self.scenario,
            &self.places,
            self.seed,
            self.place,
            self.made.len(),
            digit,
        )?;
        match self.made.push(digit) {
            Ok(()) => Ok(()),
            Err(_) => unreachable!(),
        }
    }

    /// Takes the last choice back.
    pub fn back(&mut self)
        requires { 0 < length self.old.choices }
        ensures { (digit : ℕ) × (self.old ≡ with_choice self.new digit) }
    {
        if let Some(_digit) = self.made.pop() {
            take(
                self.alloc,
                self.model,
                &mut self.scenario,
                &self.places,
                self.made.len(),
            );
        }
    }

    /// The scenario so far, by value.
    pub fn finish(self) -> Scenario
        ensures { IfRead (answer self.entry) (λ s. result ≡ s) }
    {
        self.scenario
    }
}
