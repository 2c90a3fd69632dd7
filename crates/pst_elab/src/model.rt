//! The model of sources that keep all rules.
ghost use Rattle.std.specs.Prelude.{◌≡◌, IfOk, map};
ghost use Rattle.pst_ast.specs.DeclarationView.{view_unit};
ghost use Rattle.pst_bind.specs.Needs.{served as served_in};
ghost use Rattle.pst_elab_rules.specs.Model as tree;
ghost use Rattle.pst_evaluate.specs.Kept.{known_in};
ghost use Rattle.pst_evaluate.specs.Settled.{AreItemValues};
ghost use Rattle.pst_model.specs.ModelView.{view_model};
ghost use Rattle.pst_ast.specs.Declarations.{declarations as the_declarations};
ghost use Rattle.pst_bind.specs.PoolRules.{IsPoolMap};
ghost use Rattle.pst_tree.specs.Instances.{AreInstances};
ghost use Rattle.pst_type_rules.specs.Typed.{AreConstants};
ghost use Rattle.pst_field_domains.specs.Kept.{HasDomains};
ghost use Rattle.pst_sources.specs.Shown.{sources_of, with_constants};
ghost use Rattle.pst_type_rules.specs.Sites.{fields};

use pst_ast::Instance;
use pst_base::{Names, NoMemory};
use pst_bind::Served;
use pst_field_domains::FieldDomains;
use pst_index::Index;
use pst_member_bases::MemberBases;
use pst_model::Model;
use pst_model_functions::model_functions;
use pst_model_pools::{model_parts, model_pools, model_serves};
use pst_model_types::{model_actions, model_objects};
use pst_sites::Sites;
use pst_source_rules::Judged;
use pst_sources::{Known, Sources};
use pst_type_numbers::Numbered;
use pst_type_rules::ConstantValue;
use std::alloc::Global;

// The model by the values of constants, the domains of fields and the instances.
fn model_by(
    numbered: &Numbered<'_>,
    domains: &FieldDomains,
    instances: &[Instance],
    served: &[Served],
) -> Result<Model, NoMemory>
    requires domains { domains.now.places ≡ map (λ f. f.name.place) (fields (sources_of numbered.now).units) }
    requires served { served.now ≡ served_in (sources_of numbered.now).units instances.now }
    ensures { IfOk result (λ m. view_model m ≡ tree.model_by (sources_of numbered.now) domains.now.domains instances.now) }
{
    let sources = numbered.sources();
    let alloc = sources.known().alloc();
    let parts = model_parts(alloc, instances)?;
    let pools = model_pools(numbered, instances)?;
    let serves = model_serves(alloc, served)?;
    let functions = model_functions(sources.known())?;
    let objects = model_objects(sources, domains)?;
    let actions = model_actions(numbered, domains)?;
    Ok(Model {
        actions,
        objects,
        instances: parts,
        pools,
        functions,
        served: serves,
    })
}

// The sources with the values of their constants and items, and the numbers of their fields.
fn sources_in<'a>(
    alloc: Global,
    sites: &'a Sites<'a>,
    bases: &'a MemberBases<'a>,
    names: &'a Names,
    constants: &'a [ConstantValue],
) -> Result<Sources<'a>, NoMemory>
    requires { bases.now ≡ the_declarations (map view_unit sites.now) }
    ensures { IfOk result (λ s. sources_of s ≡ with_constants (map view_unit sites.now) names.now constants.now) }
{
    let known = Known::new(alloc, bases, names, sites, constants)?;
    Sources::new(known)
}

// The model by the values of constants, the domains of fields and the instances, once types are numbered.
fn model_from(
    sources: &Sources<'_>,
    domains: &FieldDomains,
    instances: &[Instance],
    served: &[Served],
) -> Result<Model, NoMemory>
    requires domains { domains.now.places ≡ map (λ f. f.name.place) (fields (sources_of sources.now).units) }
    requires served { served.now ≡ served_in (sources_of sources.now).units instances.now }
    ensures { IfOk result (λ m. view_model m ≡ tree.model_by (sources_of sources.now) domains.now.domains instances.now) }
{
    let numbered = Numbered::new(sources)?;
    model_by(&numbered, domains, instances, served)
}

// The model, given the bases of types and the domains of fields.
fn model_over(
    alloc: Global,
    sites: &Sites<'_>,
    bases: &MemberBases<'_>,
    names: &Names,
    judged: &Judged,
    domains: &FieldDomains,
) -> Result<Model, NoMemory>
    requires declared { bases.now ≡ the_declarations (map view_unit sites.now) }
    requires constants { AreConstants (map view_unit sites.now) names.now judged.now.typed.constants }
    requires instances { AreInstances (map view_unit sites.now) names.now judged.now.tree.instances }
    requires pooled { IsPoolMap (map view_unit sites.now) judged.now.tree.instances judged.now.pools.pools judged.now.pools.served }
    requires domains { HasDomains (map view_unit sites.now) names.now domains.now }
    ensures { IfOk result (λ m. tree.IsModel (map view_unit sites.now) names.now (view_model m)) }
{
    let constants = judged.typed.constants.as_slice();
    let instances = judged.tree.instances.as_slice();
    let served = judged.pools.served.as_slice();
    let sources = sources_in(alloc, sites, bases, names, constants)?;
    let model = model_from(&sources, domains, instances, served)?;
    Ok(model)
}

/// The model of sources that keep all rules, given the places at which things are declared and the
/// index of what they declare.
pub(crate) fn model_of(
    alloc: Global,
    sites: &Sites<'_>,
    index: &Index,
    names: &Names,
    judged: &Judged,
) -> Result<Model, NoMemory>
    requires declared { index.now ≡ the_declarations (map view_unit sites.now) }
    requires constants { AreConstants (map view_unit sites.now) names.now judged.now.typed.constants }
    requires values { AreItemValues (map view_unit sites.now) names.now (known_in judged.now.values) }
    requires instances { AreInstances (map view_unit sites.now) names.now judged.now.tree.instances }
    requires pooled { IsPoolMap (map view_unit sites.now) judged.now.tree.instances judged.now.pools.pools judged.now.pools.served }
    ensures { IfOk result (λ m. tree.IsModel (map view_unit sites.now) names.now (view_model m)) }
{
    let domains = FieldDomains::by_values(alloc, sites, index, names, &judged.values)?;
    let bases = MemberBases::new(alloc, index)?;
    model_over(alloc, sites, &bases, names, judged, &domains)
}
