// The places of a record's points, one after the other: what a list is made by, whole or a stop at a time.
#![tactic(auto)]

ghost use Rattle.std.specs.Prelude.{◌≡◌, ◌+◌, ltb, get_or};
ghost use Rattle.places.specs.Places.{next_place, point_at};

use sampling::Sampler;
use stops::channels::item;

// A place in a record: a row and an index in it. Max stands at the start of the row after the last.
#[derive(Clone, Copy)]
pub struct RowPlace {
    pub row: usize,
    pub index: usize,
}

// The count of row i, 0 where there is none.
pub fn count_at(counts: &[u8], i: usize) -> usize
    ensures { result ≡ get_or counts.now i 0 }
{
    counts.get(i).copied().unwrap_or(0) as usize
}

// One more index stands in a row of n points. Neither n - 1 nor index + 1 is worked out where there is none.
fn goes_on(n: usize, index: usize) -> bool
    ensures { result ≡ ltb (index + 1) n }
{
    n != 0 && index < n - 1
}

// The place after a place. After max comes max.
pub fn next_place(counts: &[u8], place: RowPlace) -> RowPlace
    ensures { result ≡ next_place counts.now place }
{
    let row = place.row;
    let index = place.index;
    if goes_on(count_at(counts, row), index) {
        return RowPlace {
            row,
            index: index + 1,
        };
    }
    if row < Sampler::CELLS {
        return RowPlace {
            row: row + 1,
            index: 0,
        };
    }
    RowPlace {
        row: Sampler::CELLS,
        index: 0,
    }
}

// The point at a place; past the end of the rows it is not-a-number.
pub fn point_at(rows: &[f32], max: f32, place: RowPlace) -> f32
    ensures { result ≡ point_at rows.now max place }
{
    let row = place.row;
    let index = place.index;
    if row < Sampler::CELLS {
        if index < rows.len() {
            return item(rows, row * Sampler::ROW + index);
        }
        return 0.0 / 0.0;
    }
    max
}
