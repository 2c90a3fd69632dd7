//! Looking up references.
ghost use Rattle.std.specs.Prelude.{◌≡◌, IfSome};
ghost use Rattle.std.specs.List.{list_any};
ghost use Rattle.std.specs.Option.{option_map};
ghost use Rattle.pst_legal.specs.SupplyReading.{same_link};
ghost use Rattle.pst_open_ends.specs.Spots.{kept_spot, spot_at};
ghost use Rattle.pst_open_ends.specs.Options.{links_from, link_of};

use crate::flows::{is_initial, is_to};
use crate::spot::Spot;
use pst_scen::{Act, Link};
use pst_ties::End;

// Whether a link names this reference, or the first object where there is none.
fn links_to(link: Link, to: Option<End>) -> bool
    ensures { result ≡ same_link link (link_of to) }
{
    match to {
        None => is_initial(link),
        Some(end) => is_to(link, end.act, end.reference),
    }
}

/// The reference at an end.
pub(crate) fn spot_at(acts: &[Act], end: End) -> Option<Spot>
    ensures spot { result ≡ option_map kept_spot (spot_at acts.now end) }
    ensures end { IfSome result (λ spot. (spot.act ≡ end.act) × (spot.reference ≡ end.reference)) }
{
    match acts.get(end.act) {
        None => None,
        Some(act) => match act.references.as_slice().get(end.reference) {
            None => None,
            Some(filled) => Some(Spot {
                act: end.act,
                reference: end.reference,
                pool: filled.pool,
                flow: filled.flow,
                link: filled.link,
            }),
        },
    }
}

// Whether the reference at an end has that link.
fn links_from(acts: &[Act], end: End, to: Option<End>) -> bool
    ensures { result ≡ links_from acts.now (link_of to) end }
{
    match spot_at(acts, end) {
        None => false,
        Some(spot) => links_to(spot.link, to),
    }
}

/// Whether one of these references has that link.
pub(crate) fn some_links(acts: &[Act], ends: &[End], to: Option<End>) -> bool
    ensures { result ≡ list_any (links_from acts.now (link_of to)) ends.now }
{
    for end in ends {
        if links_from(acts, *end, to) {
            return true;
        }
    }
    false
}
