//! What may stand where in a path.
ghost use Rattle.std.specs.Prelude.{◌≡◌};
ghost use Rattle.pst_ast.specs.Paths;
ghost use Rattle.pst_ast.specs.Sorts;
ghost use Rattle.pst_index.specs.Fitting.{fits_of};

use pst_ast::{Declaration, Referent, Sort};

/// What a path is read for.
#[derive(Clone, Copy, PartialEq, Eq)]
pub enum PathFor {
    /// A value.
    Value,
    /// An array, in a `foreach`.
    Array,
}

// A value: an array just where an index stands behind it.
fn is_value_sort(sort: Sort, index: bool) -> bool
    ensures { result ≡ Paths.is_value_sort sort index }
{
    match sort {
        Sort::Field { array } => array == index,
        Sort::Item { .. } | Sort::Local | Sort::Index => !index,
        _ => false,
    }
}

// Whether it is a value.
fn is_value(referent: &Referent, index: bool) -> bool
    ensures { result ≡ Paths.is_value referent.now index }
{
    match referent {
        Referent::Declared(declaration) => is_value_sort(declaration.sort, index),
        Referent::Initial(_) | Referent::Number(_) => !index,
        Referent::Previous(_) => false,
    }
}

// Whether a sort is that of an array.
fn is_array_sort(sort: Sort) -> bool
    ensures { result ≡ Paths.is_array_sort sort }
{
    matches!(sort, Sort::Field { array: true })
}

// Whether it is an array.
fn is_array(referent: &Referent, index: bool) -> bool
    ensures { result ≡ Paths.is_array referent.now index }
{
    match referent {
        Referent::Declared(declaration) => is_array_sort(declaration.sort),
        _ => false,
    }
}

/// Whether it is what a path is read for.
pub fn fits(what: PathFor, referent: &Referent, index: bool) -> bool
    ensures { result ≡ fits_of what referent.now index }
{
    match what {
        PathFor::Value => is_value(referent, index),
        PathFor::Array => is_array(referent, index),
    }
}

// A field, which is an array or none, in the place of what is declared.
fn as_field(referent: &Referent) -> Referent
    ensures { result ≡ Paths.as_field referent.now }
{
    match referent {
        Referent::Declared(declaration) => Referent::Declared(Declaration {
            sort: Sort::Field {
                array: is_array_sort(declaration.sort),
            },
            ..*declaration
        }),
        other => *other,
    }
}

/// Whether it is an array without an index, something else with one, or something else than an
/// array in a `foreach`; whether it may stand there isn't asked.
pub fn is_misindexed(what: PathFor, referent: &Referent, index: bool) -> bool
    ensures { result ≡ Paths.is_misindexed (fits_of what) referent.now index }
{
    !fits(what, &as_field(referent), index)
}

/// Whether a sort is that of a handle.
pub fn is_handle(sort: Sort) -> bool
    ensures { result ≡ Sorts.is_handle sort }
{
    matches!(sort, Sort::Handle { .. })
}

/// Whether a sort is that of a reference or a claim.
pub fn is_need(sort: Sort) -> bool
    ensures { result ≡ Sorts.is_need sort }
{
    matches!(sort, Sort::Reference { .. } | Sort::Claim { .. })
}

/// Whether it may stand before the first dot of a path.
pub fn is_head(referent: &Referent) -> bool
    ensures { result ≡ Paths.is_head referent.now }
{
    match referent {
        Referent::Declared(declaration) => is_need(declaration.sort) || is_handle(declaration.sort),
        Referent::Previous(_) => true,
        _ => false,
    }
}

/// Whether it may stand behind the last dot of a path.
pub fn is_last(referent: &Referent) -> bool
    ensures { result ≡ Paths.is_last referent.now }
{
    match referent {
        Referent::Declared(declaration) => matches!(declaration.sort, Sort::Field { .. }),
        Referent::Initial(_) | Referent::Number(_) => true,
        Referent::Previous(_) => false,
    }
}

/// Whether it is a handle.
pub fn is_handle_referent(referent: &Referent) -> bool
    ensures { result ≡ Paths.is_handle_referent referent.now }
{
    match referent {
        Referent::Declared(declaration) => is_handle(declaration.sort),
        _ => false,
    }
}

/// Whether it is a reference or a claim.
pub fn is_need_referent(referent: &Referent) -> bool
    ensures { result ≡ Paths.is_need_referent referent.now }
{
    match referent {
        Referent::Declared(declaration) => is_need(declaration.sort),
        _ => false,
    }
}
