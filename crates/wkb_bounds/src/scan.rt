//! The bounds of a geometry, by one walk over its pieces.

ghost use Rattle.std.specs.Prelude.{◌≡◌, ◌≤◌, ◌*◌, length, nat_lt, true, false, Err, IfOk, IfErr};
ghost use Rattle.wkb_geom.specs.declared.code.TheConstants.{POLYGON};
ghost use Rattle.wkb_geom.specs.Dimensions.{width};
ghost use Rattle.wkb_geom.specs.Reading.{coordinates};
ghost use Rattle.wkb_check.specs.Known.{HasGeometry};
ghost use Rattle.wkb_bounds.specs.Bounded.{AreBounds, BoundsFront, BoundsOnlyFront, FindsBounds};
ghost use Rattle.wkb_bounds.specs.Bounded.{nothing as no_bounds, Widens};
ghost use Rattle.wkb_bounds.specs.Ordinates.{words_in};
ghost use Rattle.wkb_check.specs.Pieces.{IsPieceAt, IsHeaderAt, own_end};
ghost use Rattle.wkb_bounds.specs.Walking.{CountsUpTo, WidensByPiece, HasWidened};
ghost use Rattle.wkb_check.specs.Public.{Checks, DescribesFront, HasNoPlain};

use crate::axes::AxisExtremes;
use crate::range::Bounds;
use wkb_check::{Piece, Pieces, Refused, Summary, check, check_plain};
use wkb_geom::code::{POLYGON, WkbType};
use wkb_geom::words::rest_from;
use wkb_geom::{Dimension, Endianness, by_order};

/// Writes the bounds of `count` coordinates. If it is inlined, the dimension and the order are constants.
#[inline(always)]
fn run_bounds_by_into(
    dimension: Dimension,
    order: Endianness,
    count: u32,
    bytes: &[u8],
    bounds: &mut Bounds,
)
    requires { 8 * width dimension * count ≤ length bytes.now }
    ensures { Widens no_bounds bounds.new
        (λ a. words_in a dimension (coordinates order dimension count bytes.now)) }
{
    let mut extremes = AxisExtremes::none();
    extremes.widen(dimension, order, count, bytes);
    *bounds = extremes.bounds();
}

/// As `run_bounds_by_into`. It isn't inlined, so that others don't pay for its frame.
#[inline(never)]
fn other_run_bounds_into(
    dimension: Dimension,
    order: Endianness,
    count: u32,
    bytes: &[u8],
    bounds: &mut Bounds,
)
    requires { 8 * width dimension * count ≤ length bytes.now }
    ensures { Widens no_bounds bounds.new
        (λ a. words_in a dimension (coordinates order dimension count bytes.now)) }
{
    run_bounds_by_into(dimension, order, count, bytes, bounds);
}

/// Writes the bounds of `count` coordinates, with a loop for each order if they have neither z nor m. It isn't inlined,
/// so that others don't pay for its frame.
#[inline(never)]
fn run_bounds_into(
    dimension: Dimension,
    order: Endianness,
    count: u32,
    bytes: &[u8],
    bounds: &mut Bounds,
)
    requires { 8 * width dimension * count ≤ length bytes.now }
    ensures { Widens no_bounds bounds.new
        (λ a. words_in a dimension (coordinates order dimension count bytes.now)) }
{
    use Dimension::Xy;
    use Endianness::{BigEndian as Big, LittleEndian as Little};
    match (dimension, order) {
        (Xy, Big) => run_bounds_by_into(Xy, Big, count, bytes, bounds),
        (Xy, Little) => run_bounds_by_into(Xy, Little, count, bytes, bounds),
        _ => other_run_bounds_into(dimension, order, count, bytes, bounds),
    }
}

/// Writes the bounds of a geometry that has coordinates, and so is this piece alone.
#[inline(always)]
fn piece_bounds_into(buf: &[u8], only: &Piece, bounds: &mut Bounds)
    requires here { HasGeometry buf.now }
    requires only { IsPieceAt buf.now 0 only.now }
    requires low { nat_lt only.now.kind POLYGON ≡ true }
    ensures { (g : HasGeometry buf.now) → AreBounds bounds.new g.value }
{
    let bytes = rest_from(buf, only.offset);
    if only.count == 1 {
        *bounds = Bounds::of_coordinate(only.order, only.dimension, bytes);
        return;
    }
    run_bounds_into(only.dimension, only.order, only.count, bytes, bounds);
}

/// Widens the ranges by the coordinates of a piece, if it has some.
#[inline(always)]
fn widen_by_piece(buf: &[u8], piece: &Piece, extremes: &mut AxisExtremes)
    requires inside { own_end piece.now ≤ length buf.now }
    requires few { CountsUpTo piece.now.offset extremes.old }
    ensures { WidensByPiece buf.now piece.now extremes.old extremes.new }
{
    if piece.has_coordinates() {
        let bytes = rest_from(buf, piece.offset);
        extremes.widen(piece.dimension, piece.order, piece.count, bytes);
    }
}

/// Writes the bounds of a polygon with this header. If it is inlined, the order and the dimension are constants.
#[tactic(auto, using(wkb_check::proofs::Following::fewer_left))]
#[inline(always)]
fn rings_bounds_by_into(
    buf: &[u8],
    dimension: Dimension,
    order: Endianness,
    srid: Option<u32>,
    bounds: &mut Bounds,
)
    requires here { HasGeometry buf.now }
    requires header { IsHeaderAt buf.now 0 POLYGON dimension order srid }
    ensures { (g : HasGeometry buf.now) → AreBounds bounds.new g.value }
{
    let first = Piece::of_header(buf, 0, POLYGON, dimension, order, srid);
    let mut extremes = AxisExtremes::none();
    let mut pieces = Pieces::behind(buf, &first);
    while let Some(ring) = pieces.next_if_ring() {
        widen_by_piece(buf, &ring, &mut extremes);
    }
    *bounds = extremes.bounds();
}

/// As `rings_bounds_by_into`. It isn't inlined, so that others don't pay for its frame.
#[inline(never)]
fn other_rings_bounds_into(
    buf: &[u8],
    dimension: Dimension,
    order: Endianness,
    srid: Option<u32>,
    bounds: &mut Bounds,
)
    requires here { HasGeometry buf.now }
    requires header { IsHeaderAt buf.now 0 POLYGON dimension order srid }
    ensures { (g : HasGeometry buf.now) → AreBounds bounds.new g.value }
{
    rings_bounds_by_into(buf, dimension, order, srid, bounds);
}

/// Writes the bounds of a polygon with this header, with a loop for each order if it has neither z nor m. It takes
/// scalars, so that the findings on other geometries need no place in memory.
#[inline(never)]
fn rings_bounds_into(
    buf: &[u8],
    dimension: Dimension,
    order: Endianness,
    srid: Option<u32>,
    bounds: &mut Bounds,
)
    requires here { HasGeometry buf.now }
    requires header { IsHeaderAt buf.now 0 POLYGON dimension order srid }
    ensures { (g : HasGeometry buf.now) → AreBounds bounds.new g.value }
{
    use Dimension::Xy;
    use Endianness::{BigEndian as Big, LittleEndian as Little};
    match (dimension, order) {
        (Xy, Big) => rings_bounds_by_into(buf, Xy, Big, srid, bounds),
        (Xy, Little) => rings_bounds_by_into(buf, Xy, Little, srid, bounds),
        _ => other_rings_bounds_into(buf, dimension, order, srid, bounds),
    }
}

/// Writes the bounds of the geometry at the start of bytes in which the check found this.
#[inline(always)]
fn found_bounds_into(buf: &[u8], found: &Summary, bounds: &mut Bounds)
    requires { DescribesFront buf.now found.now }
    ensures { (g : HasGeometry buf.now) → AreBounds bounds.new g.value }
{
    if found.wkb_type.kind() < POLYGON {
        piece_bounds_into(buf, &Piece::outermost(buf, found), bounds);
        return;
    }
    match found.wkb_type {
        WkbType::Polygon(dimension) => {
            rings_bounds_into(buf, dimension, found.order, found.srid, bounds);
        }
        _ => match Piece::outermost(buf, found).only_member(buf) {
            Some(member) => member_bounds_into(member, bounds),
            None => front_bounds_into(buf, bounds),
        },
    }
}

/// Writes the bounds of a geometry that is known to be there: those of the one whose only member it is.
#[inline(never)]
fn member_bounds_into(buf: &[u8], bounds: &mut Bounds)
    requires here { HasGeometry buf.now }
    ensures { (g : HasGeometry buf.now) → AreBounds bounds.new g.value }
{
    let first = Piece::of_geometry(buf, 0);
    if first.has_coordinates() {
        return piece_bounds_into(buf, &first, bounds);
    }
    if first.kind == POLYGON {
        return rings_bounds_into(buf, first.dimension, first.order, first.srid, bounds);
    }
    front_bounds_into(buf, bounds);
}

/// Widens the ranges by the next pieces, as long as geometries have a plain header in this order. Where that is a
/// constant, these headers are compared, not decoded, and the ranges stay in registers.
#[inline(always)]
fn widen_by_bare(
    order: Endianness,
    buf: &[u8],
    pieces: &mut Pieces<'_>,
    extremes: &mut AxisExtremes,
)
    requires here { HasGeometry buf.now }
    requires before { HasWidened buf.now pieces.old extremes.old }
    ensures { HasWidened buf.now pieces.new extremes.new }
{
    loop {
        if let Some(point) = pieces.next_if_point(order) {
            widen_by_piece(buf, &point, extremes);
        } else if let Some(piece) = pieces.next_bare(order) {
            widen_by_piece(buf, &piece, extremes);
            while let Some(ring) = pieces.next_if_ring() {
                widen_by_piece(buf, &ring, extremes);
            }
        } else {
            return;
        }
    }
}

/// Writes the bounds of the geometry at the start of the bytes, which is known to be there.
#[inline(never)]
fn front_bounds_into(buf: &[u8], bounds: &mut Bounds)
    requires here { HasGeometry buf.now }
    ensures { (g : HasGeometry buf.now) → AreBounds bounds.new g.value }
{
    let mut extremes = AxisExtremes::none();
    let mut pieces = Pieces::of(buf);
    let order = Piece::of_geometry(buf, 0).order;
    by_order!(order, widen_by_bare(order, buf, &mut pieces, &mut extremes));
    while let Some(piece) = pieces.next() {
        widen_by_piece(buf, &piece, &mut extremes);
    }
    *bounds = extremes.bounds();
}

/// Writes the bounds of the geometry at the start of the bytes, if `check_plain` finds it. Else [`any_bounds_into`] has
/// to look.
///
/// It returns no `Result`, which would need a place in memory.
#[tactic(auto, using(crate::proofs::Scanning::front_there, crate::proofs::Scanning::bounds_front))]
#[inline(always)]
pub fn plain_bounds_into(buf: &[u8], bounds: &mut Bounds) -> bool
    ensures front { result ≡ true → BoundsFront buf.now bounds.new }
    ensures one_front { result ≡ true → BoundsOnlyFront buf.now bounds.new }
    ensures none { result ≡ false → HasNoPlain buf.now }
    ensures kept { result ≡ false → bounds.new ≡ bounds.old }
{
    match check_plain(buf) {
        Some(found) => {
            found_bounds_into(buf, &found, bounds);
            true
        }
        None => false,
    }
}

/// Writes what [`bounds`] finds into the caller's bounds, or leaves these as they are and returns its refusal.
#[tactic(auto, using(crate::proofs::Scanning::front_there, crate::proofs::Scanning::bounds_front))]
#[inline(always)]
pub fn any_bounds_into(buf: &[u8], bounds: &mut Bounds) -> Result<(), Refused>
    ensures front { IfOk result (λ _. BoundsFront buf.now bounds.new) }
    ensures one_front { IfOk result (λ _. BoundsOnlyFront buf.now bounds.new) }
    ensures refused { IfErr result (λ e. Checks buf.now (Err e)) }
    ensures kept { IfErr result (λ _. bounds.new ≡ bounds.old) }
{
    check(buf)?;
    front_bounds_into(buf, bounds);
    Ok(())
}

/// The bounds of the geometry at the start of the bytes, over its coordinates at every level. What follows it is not
/// looked at. A NaN is passed over, and the other numbers of its coordinate count. The order is that of numbers, with
/// minus zero below zero.
///
/// Rejected where `check` rejects the bytes. Nothing is allocated.
pub fn bounds(buf: &[u8]) -> Result<Bounds, Refused>
    ensures { FindsBounds buf.now result }
{
    let mut found = Bounds::empty();
    if plain_bounds_into(buf, &mut found) {
        return Ok(found);
    }
    any_bounds_into(buf, &mut found)?;
    Ok(found)
}
