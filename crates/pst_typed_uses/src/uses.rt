//! What all uses break, and the constants among them.
ghost use Rattle.std.specs.Prelude.{◌≡◌, IfOk, None, map};
ghost use Rattle.std.specs.List.{flat_map};
ghost use Rattle.pst_ast.specs.DeclarationView.{view_unit};
ghost use Rattle.pst_type_rules.specs.Enums.{enums as the_enums};
ghost use Rattle.pst_enum_values.specs.Gathered.{enum_places};
ghost use Rattle.pst_evaluate.specs.Kept.{known_in};
ghost use Rattle.pst_evaluate.specs.Settled.{AreItemValues};
ghost use Rattle.pst_name_rules.specs.Leasts.{IsLeastOf, least_at};
ghost use Rattle.pst_ast.specs.Declarations.{declarations};
ghost use Rattle.pst_ast.specs.Uses.{uses};
ghost use Rattle.pst_type_rules.specs.Typed.{AreConstants};
ghost use Rattle.pst_typed_uses.specs.Breaches.{IsUseBreach};
ghost use Rattle.pst_typed_uses.specs.Found.{constants_in, use_found};

use crate::in_order::in_order;
use crate::judge::Judge;
use pst_ast::Finding;
use pst_base::NoMemory;
use pst_enum_values::EnumTable;
use pst_type_rules::ConstantValue;
use pst_use_rules::Facts;
use pst_walk::walk;
use std::alloc::Global;

// The least finding of all uses, and the constants that have values.
#[tactic(auto, using(crate::proofs::Walked::walked))]
fn judged_uses(
    alloc: Global,
    facts: &Facts<'_>,
    enums: &EnumTable<'_>,
) -> Result<(Option<Finding>, Vec<ConstantValue>), NoMemory>
    requires declared { facts.now.index.now ≡ declarations (map view_unit facts.now.sites.now) }
    requires enums { enums.now.enums ≡ map enum_places (the_enums (map view_unit facts.now.sites.now)) }
    ensures least { IfOk result (λ found. found.0 ≡ least_at (use_found (map view_unit facts.now.sites.now) facts.now.names.now (known_in enums.now.items)) (uses (map view_unit facts.now.sites.now)) None) }
    ensures constants { IfOk result (λ found. found.1.items ≡ flat_map (constants_in (map view_unit facts.now.sites.now) facts.now.names.now (known_in enums.now.items)) (uses (map view_unit facts.now.sites.now))) }
{
    let mut judge = Judge::new(alloc, *facts, enums);
    walk(alloc, facts.sites.sources(), &mut judge)?;
    Ok(judge.into_parts())
}

/// The least of what uses break of the rules of types, and the constants of the sources in order of
/// place: of those parts that must be constant the ones that have a value.
///
/// `NoMemory` also comes where two constants with different values stand at one place, which no
/// tokens at rising places do.
#[tactic(auto, using(crate::proofs::Least::uses_least, crate::proofs::ConstantsListed::are_constants))]
pub fn uses_finding(
    alloc: Global,
    facts: &Facts<'_>,
    enums: &EnumTable<'_>,
) -> Result<(Option<Finding>, Vec<ConstantValue>), NoMemory>
    requires declared { facts.now.index.now ≡ declarations (map view_unit facts.now.sites.now) }
    requires enums { enums.now.enums ≡ map enum_places (the_enums (map view_unit facts.now.sites.now)) }
    requires values { AreItemValues (map view_unit facts.now.sites.now) facts.now.names.now (known_in enums.now.items) }
    ensures least { IfOk result (λ found. IsLeastOf (IsUseBreach (map view_unit facts.now.sites.now) facts.now.names.now) found.0) }
    ensures constants { IfOk result (λ found. AreConstants (map view_unit facts.now.sites.now) facts.now.names.now found.1.items) }
{
    pst_base::places_are_ordered();
    pst_evaluate::constants_are_found();
    pst_range_rules::plain_types_are_judged();
    pst_range_rules::types_are_judged();
    pst_range_rules::arms_are_judged();
    pst_use_rules::expressions_are_judged();
    pst_use_rules::counts_are_judged();
    pst_use_rules::binds_are_judged();
    pst_use_rules::assignments_are_judged();
    pst_use_rules::calls_are_judged();
    let (least, constants) = judged_uses(alloc, facts, enums)?;
    let ordered = in_order(alloc, constants)?;
    Ok((least, ordered))
}
