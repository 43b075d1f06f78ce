// The list of a sheet, of either sort.
ghost use Rattle.std.specs.Prelude.{◌≡◌};
ghost use Rattle.linearize.specs.Lent.{lent_output};
ghost use Rattle.sheet.specs.Answers.{sheet_by};
ghost use Rattle.sheet.specs.Lists.{ThinsBy};
ghost use Rattle.sheet.specs.inner.Making.{read_held, ListsBy};
ghost use Rattle.gradient.specs.Lent.{lent_ramp};

use crate::{ListSort, SheetAnswer};
use gradient::Ramp;
use linearize::{Listed, after, thin};
use within::thin_within;

// The list of a record, of either sort: the public calls take the sort as a value, which a host has as a number.
fn list_by(
    ramp: &Ramp<'_>,
    threshold: f32,
    sort: ListSort,
    rows: &[f32],
    counts: &[u8],
    marks: &[u32],
    places: &mut [f32],
    colours: &mut [f32],
) -> Listed
    ensures { ThinsBy sort (lent_ramp ramp.now) threshold (read_held rows counts marks) (lent_output places colours) result }
{
    match sort {
        ListSort::Thinned => thin(ramp, threshold, rows, counts, marks, places, colours),
        ListSort::Within(hold) => thin_within(
            ramp, threshold, hold, rows, counts, marks, places, colours,
        ),
    }
}

// The answer of a sheet, by that of its list.
fn answer_by(stops: usize, made: Listed) -> SheetAnswer
    ensures { result ≡ sheet_by stops made }
{
    match made {
        Listed::Refused(number) => SheetAnswer::Unlisted { stops, number },
        Listed::Done {
            stops: listed,
            evaluations,
        } => SheetAnswer::Done {
            stops,
            listed,
            evaluations,
        },
    }
}

// Makes the list of a record, after so many evaluations were spent on it.
pub(crate) fn list(
    ramp: &Ramp<'_>,
    threshold: f32,
    sort: ListSort,
    rows: &[f32],
    counts: &[u8],
    marks: &[u32],
    places: &mut [f32],
    colours: &mut [f32],
    stops: usize,
    spent: usize,
) -> SheetAnswer
    ensures { ListsBy sort (lent_ramp ramp.now) threshold (read_held rows counts marks) (lent_output places colours) stops spent result }
{
    let made = list_by(ramp, threshold, sort, rows, counts, marks, places, colours);
    answer_by(stops, after(spent, made))
}
