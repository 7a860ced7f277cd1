//! Line strings of one dimension.

ghost use Rattle.std.specs.Prelude.{◌≡◌, ◌↔◌, IsSome, All};
ghost use Rattle.wkb_geom.specs.Found.{HasDimensions};

use crate::line_string::LineString;
use crate::parts::all_have;
use wkb_geom::{Dimensioned, Dimensions, MultiLineStringTrait};

/// Line strings of one dimension.
#[derive(Debug, Clone, Copy)]
pub struct MultiLineString<'w> {
    dim: Dimensions,
    line_strings: &'w [LineString<'w>],
    ghost one_dimension: { All (λ l. l.dim ≡ dim) line_strings.now },
}

impl<'w> MultiLineString<'w> {
    ghost use Rattle.wkb_plain.specs.Kinds.{ArePartsFor, ShowsParts, line_string_dimensions};
    ghost use Rattle.wkb_plain.specs.Kinds.{line_string_coordinates, multi_line_string_dimensions};
    ghost use Rattle.wkb_plain.specs.Kinds.{multi_line_string_line_strings};

    /// These line strings, in order. None if the dimension has no words, or a line string has
    /// another dimension.
    pub fn new(dim: Dimensions, line_strings: &'w [LineString<'w>]) -> Option<MultiLineString<'w>>
        ensures some { IsSome result ↔ ArePartsFor line_string_dimensions dim line_strings.now }
        ensures dimensions { HasDimensions multi_line_string_dimensions result dim }
        ensures line_strings { ShowsParts multi_line_string_line_strings result
            line_string_coordinates line_strings.now }
    {
        if dim.size() == 0 || !all_have(line_strings, dim) {
            return None;
        }
        Some(MultiLineString { dim, line_strings })
    }
}

impl Dimensioned for MultiLineString<'_> {
    ghost use Rattle.wkb_plain.specs.Kinds.{multi_line_string_dimensions};

    ghost dimensions = { multi_line_string_dimensions };

    fn dim(&self) -> Dimensions {
        self.dim
    }
}

#[tactic(auto, using(crate::proofs::Lookups::lookup_laws))]
impl<'w> MultiLineStringTrait for MultiLineString<'w> {
    ghost use Rattle.wkb_plain.specs.Kinds.{multi_line_string_line_strings};
    ghost use Rattle.wkb_plain.specs.Lawful.{multi_line_string_lawful};

    type InnerLineStringType = LineString<'w>;

    ghost line_strings = { multi_line_string_line_strings };

    ghost lawful = { multi_line_string_lawful };

    fn num_line_strings(&self) -> usize {
        self.line_strings.len()
    }

    fn line_string(&self, i: usize) -> Option<LineString<'w>> {
        self.line_strings.get(i).copied()
    }
}
