//! Where a path stands among the parts of a map.
ghost use Rattle.std.specs.Prelude.{◌≡◌, ◌<◌, length};
ghost use Rattle.kr_paths.specs.inner.Parts.{AreParts, IsPartFor, IsSpot};

use crate::part::PathPart;

/// A part, a place in it, and whether the path is there. Else it belongs before that place.
#[derive(Clone, Copy)]
pub(crate) struct Spot {
    pub part: usize,
    pub place: usize,
    pub there: bool,
}

/// The last part that doesn't begin above the path, or else the first.
pub(crate) fn find_part(parts: &[PathPart], path: &str) -> usize
    requires parts { AreParts parts.now }
    requires some { 0 < length parts.now }
    ensures { IsPartFor path.now parts.now result }
{
    let mut low = 0;
    let mut high = parts.len();
    while high - low > 1 {
        let middle = low + (high - low) / 2;
        if parts[middle].is_above(path) {
            high = middle;
        } else {
            low = middle;
        }
    }
    low
}

/// Where the path stands, or belongs.
pub(crate) fn find(parts: &[PathPart], path: &str) -> Spot
    requires parts { AreParts parts.now }
    requires some { 0 < length parts.now }
    ensures { IsSpot path.now parts.now result }
{
    let part = find_part(parts, path);
    match parts[part].find(path) {
        Ok(place) => Spot {
            part,
            place,
            there: true,
        },
        Err(place) => Spot {
            part,
            place,
            there: false,
        },
    }
}
