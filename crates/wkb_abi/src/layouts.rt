//! How the structs are laid out that C programs are compiled with.

ghost use Rattle.wkb_abi.specs.Layouts.{FoundLayout, FaultLayout, OptionsLayout, PartLayout, RangeLayout};
ghost use Rattle.wkb_abi.specs.Layouts.{BoundsLayout, TotalsLayout, SliceLayout, ColumnLayout};
ghost use Rattle.wkb_abi.specs.Layouts.{LevelColumnLayout, LevelSlicesLayout};

/// The structs of `c/wkb.h` and `c/wkb_raw.h` have these sizes and alignments, and each field its offset.
pub fn layouts()
    ensures found { FoundLayout }
    ensures fault { FaultLayout }
    ensures options { OptionsLayout }
    ensures part { PartLayout }
    ensures range { RangeLayout }
    ensures bounds { BoundsLayout }
    ensures totals { TotalsLayout }
    ensures slice { SliceLayout }
    ensures column { ColumnLayout }
    ensures level_column { LevelColumnLayout }
    ensures level_slices { LevelSlicesLayout }
{}
