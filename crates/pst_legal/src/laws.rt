//! Laws of the first legal scenario and of bodies, each the contract of a function that does nothing.
ghost use Rattle.pst_legal.specs.Laws.{FirstIsOne, BodiesEndOnce};

/// A model, a root and a seed have at most one first legal scenario.
pub fn first_is_one()
    ensures { FirstIsOne }
{}

/// No list of answered calls at which a body has ended or trapped begins a longer one that the body
/// makes.
pub fn bodies_end_once()
    ensures { BodiesEndOnce }
{}
