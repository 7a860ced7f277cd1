//! The numbers that C programs are compiled with.

ghost use Rattle.wkb_abi.specs.EnumNumbers.{HaveStatusNumbers, HaveOptionNumbers, HaveInputNumbers};
ghost use Rattle.wkb_abi.specs.EnumNumbers.{HaveKindNumbers, HaveDimensionNumbers, HaveOrderNumbers};
ghost use Rattle.wkb_abi.specs.EnumNumbers.{AreRefusals, OthersTellNoEnd};

/// The first input is rejected.
pub const FIRST: u32 = 1;

/// The second input is rejected.
pub const SECOND: u32 = 2;

/// The values are different.
pub const DIFFERENT: u32 = 0;

/// The values are equal.
pub const EQUAL: u32 = 1;

/// The constants, kinds, dimensions and byte orders have the numbers of `c/wkb.h`, and the statuses of refusals their
/// classes.
#[tactic(auto, using(crate::proofs::Telling::refusals, crate::proofs::Telling::others_tell_no_end))]
pub fn numbers()
    ensures statuses { HaveStatusNumbers }
    ensures options { HaveOptionNumbers }
    ensures inputs { HaveInputNumbers }
    ensures kinds { HaveKindNumbers }
    ensures dimensions { HaveDimensionNumbers }
    ensures orders { HaveOrderNumbers }
    ensures refusals { AreRefusals }
    ensures others_tell_no_end { OthersTellNoEnd }
{}
