//! The law that `wkb_raw_column_from_coordinates` is the inverse of `wkb_raw_column_coordinates`.
#![tactic(auto)]

ghost use Rattle.wkb_column_laws.specs.ThereAndBack.{BackAsSpelled, ColumnsComeBack, NullStaysNull, ThereAndBack};

/// Rows that are written in levels come back from them: what is written of the levels is what is written of the rows.
pub fn there_and_back()
    ensures columns { ColumnsComeBack }
    ensures rows { ThereAndBack }
    ensures as_spelled { BackAsSpelled }
    ensures null_rows { NullStaysNull }
{}
