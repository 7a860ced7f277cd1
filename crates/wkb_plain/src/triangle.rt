//! Triangles of three corners.

ghost use Rattle.std.specs.Prelude.{◌≡◌, ◌↔◌, length, IfSome, IsSome, All};
ghost use Rattle.wkb_geom.specs.Found.{HasDimensions};
ghost use Rattle.wkb_geom.specs.Dimensions.{size};
ghost use Rattle.wkb_geom.specs.Numbers.{IsWord};

use crate::coord::Coord;
use wkb_geom::{Dimensioned, Dimensions, TriangleTrait};

/// A triangle of three corners.
#[derive(Debug, Clone, Copy)]
pub struct Triangle<'w> {
    // Kept once: a plain geometry of any kind is as long as the longest of them, which is a triangle.
    dim: Dimensions,
    first: &'w [u64],
    second: &'w [u64],
    third: &'w [u64],
    ghost first_fits: { (length first.now ≡ size dim) × All IsWord first.now },
    ghost second_fits: { (length second.now ≡ size dim) × All IsWord second.now },
    ghost third_fits: { (length third.now ≡ size dim) × All IsWord third.now },
}

impl<'w> Triangle<'w> {
    ghost use Rattle.wkb_plain.specs.Kinds.{HaveOneDimension, coord_dimensions, coord_words};
    ghost use Rattle.wkb_plain.specs.Kinds.{triangle_dimensions};
    ghost use Rattle.wkb_plain.specs.Kinds.{triangle_first, triangle_second, triangle_third};

    /// The triangle of three corners. None if they differ in dimension.
    pub fn new(first: Coord<'w>, second: Coord<'w>, third: Coord<'w>) -> Option<Triangle<'w>>
        ensures some { IsSome result ↔ HaveOneDimension first.entry second.entry third.entry }
        ensures dimensions { HasDimensions triangle_dimensions result
            (coord_dimensions first.entry) }
        ensures first { IfSome result (λ t. triangle_first t ≡ coord_words first.entry) }
        ensures second { IfSome result (λ t. triangle_second t ≡ coord_words second.entry) }
        ensures third { IfSome result (λ t. triangle_third t ≡ coord_words third.entry) }
    {
        if second.dim != first.dim || third.dim != first.dim {
            return None;
        }
        Some(Triangle {
            dim: first.dim,
            first: first.words,
            second: second.words,
            third: third.words,
        })
    }
}

impl Dimensioned for Triangle<'_> {
    ghost use Rattle.wkb_plain.specs.Kinds.{triangle_dimensions};

    ghost dimensions = { triangle_dimensions };

    fn dim(&self) -> Dimensions {
        self.dim
    }
}

impl<'w> TriangleTrait for Triangle<'w> {
    ghost use Rattle.wkb_plain.specs.Kinds.{triangle_first, triangle_second, triangle_third};
    ghost use Rattle.wkb_plain.specs.Lawful.{triangle_lawful};

    type CoordType = Coord<'w>;

    ghost first_words = { triangle_first };

    ghost second_words = { triangle_second };

    ghost third_words = { triangle_third };

    ghost lawful = { triangle_lawful };

    fn first(&self) -> Coord<'w> {
        Coord {
            dim: self.dim,
            words: self.first,
        }
    }

    fn second(&self) -> Coord<'w> {
        Coord {
            dim: self.dim,
            words: self.second,
        }
    }

    fn third(&self) -> Coord<'w> {
        Coord {
            dim: self.dim,
            words: self.third,
        }
    }
}
