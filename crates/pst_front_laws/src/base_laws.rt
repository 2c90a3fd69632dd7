//! Laws of the definitions: each function here does nothing, and its contract is a law.
ghost use Rattle.pst_front_laws.specs.BaseLaws.{BasesAreListed, MembersAreListed};

/// Where no rule of names is broken, a declared type is derived from just those types that are
/// found as its bases, and from itself.
pub fn bases_are_listed()
    ensures { BasesAreListed }
{}

/// And it has just the members that are found, with those of its bases.
pub fn members_are_listed()
    ensures { MembersAreListed }
{}
