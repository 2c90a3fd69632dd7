//! Parsing sources.
ghost use Rattle.std.specs.Prelude.{◌≡◌, ◌++◌, ◌∷◌, [], List, ℕ, map, IfOk, IfErr, OnOk};
ghost use Rattle.pst_ast.specs.Answers.{IsWhole};
ghost use Rattle.pst_ast.specs.DeclarationTree.{UnitTree};
ghost use Rattle.pst_ast.specs.DeclarationView.{view_unit};
ghost use Rattle.pst_token.specs.Laws.{EndsOnce};
ghost use Rattle.pst_sources_read.specs.Lexed.{AreLexed};
ghost use Rattle.pst_sources_read.specs.Parsed.{AreParsed, IsUnitsEnd};
ghost use Rattle.pst_sources_read.specs.UnitsParsed.{IsUnitEnd};

use pst_ast::{SyntaxFault, Unit};
use pst_base::{Items, Place};
use pst_parser::parse_unit;
use pst_token::Token;
use pst_token::laws::tokens_are_in_order;
use std::alloc::Global;

/// Why sources aren't units.
#[derive(Clone, Copy, Debug, PartialEq, Eq)]
pub enum UnitsEnd {
    /// A source is no unit of the grammar within its limits.
    Faulty {
        /// Whether the token at the place is the first that breaks a limit; else no unit begins with
        /// the tokens up to it and with it.
        deep: bool,
        /// The place of the token.
        place: Place,
    },
    /// Memory ran out.
    NoMemory,
}

// Adds a unit.
fn add_unit(units: &mut Vec<Unit>, unit: Unit) -> Result<(), UnitsEnd>
    ensures added { OnOk result (units.new.items ≡ units.old.items ++ unit ∷ []) }
    ensures end { IfErr result (λ end. end ≡ UnitsEnd.NoMemory) }
{
    match units.push(unit) {
        Ok(()) => Ok(()),
        Err(_) => Err(UnitsEnd::NoMemory),
    }
}

// Adds the unit of a source.
fn parse_next(alloc: Global, tokens: &[Token], units: &mut Vec<Unit>) -> Result<(), UnitsEnd>
    requires { EndsOnce tokens.now }
    ensures parsed { OnOk result ((unit : UnitTree) × IsWhole tokens.now unit × (map view_unit units.new.items ≡ map view_unit units.old.items ++ unit ∷ [])) }
    ensures end { IfErr result (IsUnitEnd tokens.now) }
{
    match parse_unit(alloc, tokens) {
        Ok(unit) => add_unit(units, unit),
        Err(SyntaxFault::At { at }) => Err(UnitsEnd::Faulty {
            deep: false,
            place: tokens[at].place,
        }),
        Err(SyntaxFault::Deep { at }) => Err(UnitsEnd::Faulty {
            deep: true,
            place: tokens[at].place,
        }),
        Err(SyntaxFault::NoMemory) => Err(UnitsEnd::NoMemory),
    }
}

/// The units of sources, or the fault of the first that is none.
pub fn parse_units(alloc: Global, tokens: &[Items<Token>]) -> Result<Vec<Unit>, UnitsEnd>
    requires { (texts : List (List ℕ)) × (names : List (List ℕ)) × AreLexed texts names tokens.now }
    ensures parsed { IfOk result (λ units. AreParsed tokens.now (map view_unit units.items)) }
    ensures end { IfErr result (IsUnitsEnd tokens.now) }
{
    tokens_are_in_order();
    let mut units = Vec::new(alloc);
    for number in 0..tokens.len() {
        match parse_next(alloc, tokens[number].as_slice(), &mut units) {
            Ok(()) => (),
            Err(end) => return Err(end),
        }
    }
    Ok(units)
}
