//! What sources come to.
ghost use Rattle.std.specs.Prelude.{◌≤◌, ◌^◌, List, ℕ, map, length, string_bytes, IfOk};
ghost use Rattle.std.specs.List.{sum_by};
ghost use Rattle.pst_ast.specs.DeclarationView.{view_unit};
ghost use Rattle.pst_model.specs.ModelTree.{ModelTree};
ghost use Rattle.pst_model.specs.Sound.{IsSound};
ghost use Rattle.pst_elab_rules.specs.Ends.{IsElaborated};
ghost use Rattle.pst_sources_read.specs.Lexed.{AreLexed};
ghost use Rattle.pst_outcome.specs.Sources.{OfUnits, OfTokens, OfTexts};
ghost use Rattle.pst_front.specs.Stages.{IsStage, SaysElabEnd, SaysFault, SaysUnitsEnd};

use crate::replies::{broken, large, lexical, syntax};
use crate::stage::Stage;
use pst_ast::Unit;
use pst_base::{Items, Names, NoMemory};
use pst_elab::{ElabEnd, elaborate};
use pst_lexer::LexFault;
use pst_line_parts::RootNames;
use pst_outcome::What;
use pst_sound_model::{models_of_texts_are_sound, roots_are_concrete};
use pst_sources_read::{MOST_TOKENS, UnitsEnd, lex_texts, parse_units};
use pst_token::Token;
use std::alloc::Global;

// The stage where units have no model.
fn stage_without_model(alloc: Global, arguments: &[String], end: ElabEnd) -> Result<Stage, NoMemory>
    ensures { IfOk result (SaysElabEnd (map string_bytes arguments.now) end) }
{
    match end {
        ElabEnd::Broken { place, rule } => broken(alloc, arguments, place, rule),
        ElabEnd::Many { count } => large(alloc, What::Instances, count as u64),
        ElabEnd::NoMemory => Err(NoMemory),
    }
}

// What units come to.
fn stage_of_units(
    alloc: Global,
    arguments: &[String],
    root: &RootNames<'_>,
    names: Names,
    units: &[Unit],
) -> Result<Stage, NoMemory>
    requires { (m : ModelTree) (number : ℕ) → IsElaborated (map view_unit units.now) names root.now.component.now root.now.action.now m number → IsSound m }
    ensures { IfOk result (IsStage (OfUnits (map string_bytes arguments.now) root.now.component.now root.now.action.now names (map view_unit units.now))) }
{
    roots_are_concrete();
    match elaborate(alloc, units, &names, root.component, root.action) {
        Ok((model, number)) => Ok(Stage::Elaborated {
            names,
            model,
            root: number,
        }),
        Err(end) => stage_without_model(alloc, arguments, end),
    }
}

// The stage where sources aren't units.
fn stage_without_units(
    alloc: Global,
    arguments: &[String],
    end: UnitsEnd,
) -> Result<Stage, NoMemory>
    ensures { IfOk result (SaysUnitsEnd (map string_bytes arguments.now) end) }
{
    match end {
        UnitsEnd::Faulty { deep, place } => syntax(alloc, arguments, deep, place),
        UnitsEnd::NoMemory => Err(NoMemory),
    }
}

// What the tokens of sources come to.
fn stage_of_tokens(
    alloc: Global,
    arguments: &[String],
    root: &RootNames<'_>,
    names: Names,
    tokens: &[Items<Token>],
) -> Result<Stage, NoMemory>
    requires { (texts : List (List ℕ)) × AreLexed texts names tokens.now }
    ensures { IfOk result (IsStage (OfTokens (map string_bytes arguments.now) root.now.component.now root.now.action.now names tokens.now)) }
{
    models_of_texts_are_sound();
    match parse_units(alloc, tokens) {
        Ok(units) => stage_of_units(alloc, arguments, root, names, units.as_slice()),
        Err(end) => stage_without_units(alloc, arguments, end),
    }
}

// The stage at a fault of a text.
fn stage_without_tokens(
    alloc: Global,
    arguments: &[String],
    fault: LexFault,
) -> Result<Stage, NoMemory>
    ensures { IfOk result (SaysFault (map string_bytes arguments.now) fault) }
{
    match fault {
        LexFault::Bad(place) => lexical(alloc, arguments, false, place),
        LexFault::Wide(place) => lexical(alloc, arguments, true, place),
        LexFault::Many => large(alloc, What::Tokens, MOST_TOKENS as u64 + 1),
        LexFault::NoMemory => Err(NoMemory),
    }
}

/// What the texts of sources come to.
pub(crate) fn stage_of_texts(
    alloc: Global,
    arguments: &[String],
    root: &RootNames<'_>,
    texts: &[Items<u8>],
) -> Result<Stage, NoMemory>
    requires { sum_by length texts.now ≤ 2 ^ 31 }
    ensures { IfOk result (IsStage (OfTexts (map string_bytes arguments.now) root.now.component.now root.now.action.now texts.now)) }
{
    let mut names = Names::new(alloc);
    match lex_texts(alloc, texts, &mut names) {
        Ok(tokens) => stage_of_tokens(alloc, arguments, root, names, tokens.as_slice()),
        Err(fault) => stage_without_tokens(alloc, arguments, fault),
    }
}
