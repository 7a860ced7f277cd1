//! A type of one's own that is written, as docs/PROVING_ABOVE.md shows it.

ghost use Rattle.std.specs.Prelude.{◌<◌, ◌^◌, Some};
ghost use Rattle.wkb.specs.Prelude.traits.{Xy};
ghost use Rattle.wkb.specs.Writes.{IsEncodingOf};
ghost use Rattle.wkb_cases.specs.Points.{point_at};

use std::alloc::Global;
use wkb::error::WkbResult;
use wkb::geom::{CoordTrait, Dimensioned, Dimensions, PointTrait};
use wkb::writer::{VecSink, WriteOptions, write_point};

/// A place on the map, in the words of its two numbers.
#[derive(Clone, Copy)]
pub struct Place {
    pub longitude: u64,
    pub latitude: u64,
    ghost longitude_fits: { longitude < 2 ^ 64 },
    ghost latitude_fits: { latitude < 2 ^ 64 },
}

impl Dimensioned for Place {
    ghost dimensions = { λ place. Xy };

    fn dim(&self) -> Dimensions {
        Dimensions::Xy
    }
}

impl CoordTrait for Place {
    ghost use Rattle.wkb_cases.specs.Places.{words_of_place};
    ghost use Rattle.wkb_cases.specs.LawfulPlaces.{place_lawful};

    ghost words = { words_of_place };

    ghost lawful = { place_lawful };

    fn nth(&self, n: usize) -> Option<u64> {
        match n {
            0 => Some(self.longitude),
            1 => Some(self.latitude),
            _ => None,
        }
    }

    fn at(&self, n: usize) -> u64 {
        if n == 0 {
            self.longitude
        } else {
            self.latitude
        }
    }

    fn x(&self) -> u64 {
        self.longitude
    }

    fn y(&self) -> u64 {
        self.latitude
    }

    fn x_y(&self) -> (u64, u64) {
        (self.longitude, self.latitude)
    }
}

impl PointTrait for Place {
    ghost use Rattle.wkb_cases.specs.Places.{words_of_place};
    ghost use Rattle.wkb_cases.specs.LawfulPlaces.{place_lawful};

    type CoordType = Place;

    ghost coordinate = { λ place. Some (words_of_place place) };

    ghost lawful = { place_lawful };

    fn coord(&self) -> Option<Place> {
        Some(*self)
    }
}

/// A place as a point, under the options.
pub fn written(alloc: Global, place: &Place, options: &WriteOptions) -> WkbResult<Vec<u8>>
    ensures { IsEncodingOf options.now (point_at place.now.longitude place.now.latitude) result }
{
    let mut sink = VecSink::new(alloc);
    match write_point(&mut sink, place, options) {
        Ok(()) => Ok(sink.into_vec()),
        Err(e) => Err(e),
    }
}
