//! The domains of fields.
ghost use Rattle.std.specs.Prelude.{◌≡◌, List, [], IfOk, map, slice_get};
ghost use Rattle.std.specs.List.{AllZip};
ghost use Rattle.std.specs.Option.{option_and_then, option_map, option_map_or};
ghost use Rattle.pst_ast.specs.DeclarationView.{view_unit};
ghost use Rattle.pst_evaluate.specs.Kept.{known_in};
ghost use Rattle.pst_evaluate.specs.Settled.{AreItemValues};
ghost use Rattle.pst_places.specs.Numbers.{number_in};
ghost use Rattle.pst_ast.specs.Declarations.{declarations};
ghost use Rattle.pst_type_rules.specs.Sites.{DeclaredField};
ghost use Rattle.pst_elab_rules.specs.Spans.{domain_at as domain_of_place};
ghost use Rattle.pst_field_domains.specs.Kept.{HasDomains, IsDomainBy};

use crate::table::EnumSpans;
use crate::types::type_spans;
use pst_base::{Names, NoMemory, Place};
use pst_enum_values::EnumTable;
use pst_evaluate::ItemValues;
use pst_expr::Domain;
use pst_index::Index;
use pst_joined_spans::domain_of;
use pst_places::PlaceList;
use pst_range_rules::RangeFacts;
use pst_site_lists::{FieldSite, list_fields};
use pst_sites::Sites;
use std::alloc::Global;
use std::marker::Model;

/// The domain of each field of the sources, by the place of the field's name.
///
/// Contracts see the places and the domains. A look-up takes expected constant time.
#[derive(Drop)]
pub struct FieldDomains {
    places: PlaceList,
    domains: Vec<Domain>,
}

impl Model for FieldDomains {
    ghost use Rattle.pst_field_domains.specs.Kept.{KeptDomains};

    ghost Value = { KeptDomains };

    ghost view = { λ d. record { places = d.places; domains = d.domains.items } };
}

// The places of the names of fields.
fn places_of(alloc: Global, fields: &[FieldSite<'_>]) -> Result<PlaceList, NoMemory>
    ensures { IfOk result (λ places. places ≡ map (λ f. f.name.place) fields.now) }
{
    let mut places = Vec::new(alloc);
    for field in fields {
        places.push(field.name.place)?;
    }
    PlaceList::new(alloc, places)
}

// The domain of a field. Where its type has no value the answer is `NoMemory`.
fn field_domain(
    facts: &RangeFacts,
    table: &EnumSpans<'_>,
    field: &FieldSite<'_>,
) -> Result<Domain, NoMemory>
    ensures { IfOk result (IsDomainBy facts.now table.now field.now) }
{
    let spans = type_spans(facts, table, &field.at, field.field_type)?;
    let domain = domain_of(spans)?;
    Ok(domain)
}

// The domain of each field.
fn domains_of(
    facts: &RangeFacts,
    table: &EnumSpans<'_>,
    fields: &[FieldSite<'_>],
) -> Result<Vec<Domain>, NoMemory>
    ensures { IfOk result (λ domains. AllZip (IsDomainBy facts.now table.now) fields.now domains.items) }
{
    let mut domains = Vec::new(facts.alloc);
    for field in fields {
        let domain = field_domain(facts, table, field)?;
        domains.push(domain)?;
    }
    Ok(domains)
}

// The domain with the number of a place.
fn domain_by<'a>(domains: &'a [Domain], places: &PlaceList, place: Place) -> Option<&'a Domain>
    ensures { option_map (λ d. d.now) result ≡ option_and_then (slice_get domains.now) (number_in places.now place) }
{
    let number = places.number(place)?;
    domains.get(number)
}

impl FieldDomains {
    /// The domains of the fields of sources, given the values of their enum items.
    ///
    /// `NoMemory` also comes where a type has no value or too many, which no sources have that keep the
    /// rules of types.
    pub fn by_values(
        alloc: Global,
        sites: &Sites<'_>,
        index: &Index,
        names: &Names,
        values: &ItemValues,
    ) -> Result<FieldDomains, NoMemory>
        requires declared { index.now ≡ declarations (map view_unit sites.now) }
        requires values { AreItemValues (map view_unit sites.now) names.now (known_in values.now) }
        ensures { IfOk result (HasDomains (map view_unit sites.now) names.now) }
    {
        pst_evaluate::constants_are_found();
        let listed = sites.enums();
        let enums = EnumTable::new(alloc, listed, values)?;
        let table = EnumSpans::new(alloc, listed, values)?;
        let facts = RangeFacts {
            alloc,
            index,
            names,
            enums: &enums,
        };
        let found = list_fields(alloc, sites.sources())?;
        let fields = found.as_slice();
        let places = places_of(alloc, fields)?;
        let domains = domains_of(&facts, &table, fields)?;
        Ok(FieldDomains { places, domains })
    }

    /// The domain of the field whose name stands at a place; none where there is no field.
    pub fn domain_at(&self, place: Place) -> Option<&Domain>
        ensures { (fields : List DeclaredField) → self.now.places ≡ map (λ f. f.name.place) fields → option_map_or (λ d. d.now) result [] ≡ domain_of_place fields self.now.domains place }
    {
        domain_by(self.domains.as_slice(), &self.places, place)
    }
}
