// Laws of the words that the contracts use. These functions do nothing: their contracts are the laws.
ghost use Rattle.pst_num.specs.Laws.{RoundsTowardsZero, RoundsDown, ActOnBits, BitsDetermine};

/// Division rounds towards 0, and a remainder has the sign of the dividend.
pub fn division_rounds_towards_zero()
    ensures { RoundsTowardsZero }
{}

/// A shift to the right rounds down.
pub fn shifts_round_down()
    ensures { RoundsDown }
{}

/// The operations on bits give values, and act on each of the 64 bits by itself.
pub fn bits_act_apart()
    ensures { ActOnBits }
{}

/// Two values with the same 64 bits are the same.
pub fn bits_determine()
    ensures { BitsDetermine }
{}
