//! Bases that are marked.
ghost use Rattle.std.specs.Prelude.{◌≡◌, ◌++◌, [], reverse, IfOk};
ghost use Rattle.pst_marked_bases.specs.Leads.{AreLeads};
ghost use Rattle.pst_marked_bases.specs.Marked.{last_of, marked_bases as bases_of};

use crate::leads::{LeadTable, add_all, add_marked, follow, is_marked};
use pst_ast::Declaration;
use pst_base::{NoMemory, Place};
use pst_index::Index;
use pst_places::PlaceList;
use std::alloc::Global;
use std::marker::Model;

/// What is declared, and which types are marked.
///
/// Contracts see both. The marked bases of a type are found in time by their number. Where no type is
/// marked, nothing is kept.
#[derive(Drop)]
pub struct MarkedBases<'a> {
    index: &'a Index,
    marks: PlaceList,
    has_marks: bool,
    table: LeadTable,
}

impl<'a> Model for MarkedBases<'a> {
    ghost use Rattle.pst_marked_bases.specs.Shown.{Shown};
    ghost use Rattle.pst_marked_bases.specs.Kept.{HasLeads};

    ghost Value = { Shown };

    ghost view = { λ m. record { places = m.marks; declared = m.index.now } };

    ghost invariant = { HasLeads };
}

// A type and its bases, as far as they are marked, the nearest first.
fn chain_of(
    alloc: Global,
    marks: &PlaceList,
    index: &Index,
    table: &LeadTable,
    declaration: &Declaration,
) -> Result<Vec<Declaration>, NoMemory>
    requires { AreLeads marks.now index.now table.now.rows.items }
    ensures { IfOk result (λ chain. reverse chain.items ≡ bases_of marks.now index.now declaration.now) }
{
    let mut chain = Vec::new(alloc);
    let mut at = Some(*declaration);
    let mut left = index.as_slice().len();
    while let Some(here) = at {
        let there = follow(marks, index, table, &here, left);
        let Some(base) = there.base else {
            return Ok(chain);
        };
        if there.left == 0 {
            return Ok(chain);
        }
        add_marked(marks, &mut chain, &base)?;
        at = index.base_of(&base);
        left = there.left - 1;
    }
    Ok(chain)
}

// The same list from its end.
fn reversed(alloc: Global, chain: Vec<Declaration>) -> Result<Vec<Declaration>, NoMemory>
    ensures { IfOk result (λ bases. bases.items ≡ reverse chain.items) }
{
    let mut left = chain;
    let mut bases = Vec::new(alloc);
    while let Some(base) = left.pop() {
        bases.push(base)?;
    }
    Ok(bases)
}

// The nearest of a type and its bases that is marked.
fn nearest_of(
    marks: &PlaceList,
    index: &Index,
    table: &LeadTable,
    declaration: &Declaration,
) -> Option<Declaration>
    requires { AreLeads marks.now index.now table.now.rows.items }
    ensures { result ≡ last_of (bases_of marks.now index.now declaration.now) }
{
    let mut at = Some(*declaration);
    let mut left = index.as_slice().len();
    while let Some(here) = at {
        let there = follow(marks, index, table, &here, left);
        let Some(base) = there.base else {
            return None;
        };
        if there.left == 0 {
            return None;
        }
        if is_marked(marks, &base) {
            return Some(base);
        }
        at = index.base_of(&base);
        left = there.left - 1;
    }
    None
}

// What the action types of an index lead to; nothing is kept where none is marked.
fn leads_of(
    alloc: Global,
    marks: &PlaceList,
    index: &Index,
    has_marks: bool,
) -> Result<LeadTable, NoMemory>
    ensures { IfOk result (λ table. AreLeads marks.now index.now table.rows.items) }
{
    let mut table = LeadTable::new(alloc);
    if !has_marks {
        return Ok(table);
    }
    add_all(alloc, marks, index, &mut table, index.as_slice())?;
    Ok(table)
}

impl<'a> MarkedBases<'a> {
    /// What is declared, with those types marked whose names stand at these places.
    pub fn new(
        alloc: Global,
        index: &'a Index,
        places: Vec<Place>,
    ) -> Result<MarkedBases<'a>, NoMemory>
        ensures { IfOk result (λ m. m ≡ record { places = places.items; declared = index.now }) }
    {
        let has_marks = !places.is_empty();
        let marks = PlaceList::new(alloc, places)?;
        let table = leads_of(alloc, &marks, index, has_marks)?;
        Ok(MarkedBases {
            index,
            marks,
            has_marks,
            table,
        })
    }

    /// A type and its bases, as far as they are marked, the furthest first.
    #[tactic(auto, using(crate::proofs::Skipping::none_marked))]
    pub fn of(&self, alloc: Global, type_: &Declaration) -> Result<Vec<Declaration>, NoMemory>
        ensures { IfOk result (λ bases. bases.items ≡ bases_of self.now.places self.now.declared type_.now) }
    {
        if !self.has_marks {
            return Ok(Vec::new(alloc));
        }
        let chain = chain_of(alloc, &self.marks, self.index, &self.table, type_)?;
        reversed(alloc, chain)
    }

    /// The nearest of a type and its bases that is marked.
    #[tactic(auto, using(crate::proofs::Skipping::none_marked))]
    pub fn nearest(&self, type_: &Declaration) -> Option<Declaration>
        ensures { result ≡ last_of (bases_of self.now.places self.now.declared type_.now) }
    {
        if !self.has_marks {
            return None;
        }
        nearest_of(&self.marks, self.index, &self.table, type_)
    }
}
