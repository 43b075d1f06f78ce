// Sampling every cell that is not kept, from left to right.
ghost use Rattle.std.specs.Prelude.{◌≡◌, false, length};
ghost use Rattle.gradient.specs.Ramp.{check_of};
ghost use Rattle.sampling.specs.Constants.{cells, record_length};
ghost use Rattle.sampling.specs.inner.Steps.{task_far, RecordAnew};
ghost use Rattle.sampling.specs.Anew.{kept_by};
ghost use Rattle.sampling.specs.Lent.{lent_body};
ghost use Rattle.stops.specs.declared.Checked.TheVariants.{Fine};
ghost use Rattle.gradient.specs.Lent.{lent_ramp};
ghost use Rattle.gradient.specs.Ramp.{colour_of};

use crate::cells::resample_cell;
use crate::{Carried, Point, Task};
use blend::Rgba;
use gradient::Ramp;

// What the first cell is handed: no point is known yet.
fn nothing_known(t: f32) -> Carried
    ensures { (result.known ≡ false) × ((result.tries ≡ 0) × (result.point.pair ≡ 0)) }
{
    let colour = Rgba {
        r: 0.0,
        g: 0.0,
        b: 0.0,
        a: 0.0,
    };
    Carried {
        point: Point { colour, t, pair: 0 },
        known: false,
        tries: 0,
    }
}

// Samples every cell that is not kept. Gives the tries. The pair of the last end goes along, drawn where the ramp is Catmull-Rom.
pub(crate) fn resample_cells(
    ramp: &Ramp<'_>,
    task: Task,
    keep: [bool; 36],
    rows: &mut [f32],
    counts: &mut [u8],
) -> usize
    requires rows_len { (length rows.old ≡ record_length) × (length counts.old ≡ cells) }
    requires codes_value { check_of (lent_ramp ramp.now) ≡ Fine }
    ensures { RecordAnew (colour_of (lent_ramp ramp.now)) (task_far task) (kept_by keep) task.min task.max (lent_body rows counts) result }
{
    let mut drawn = [[0.0f32; 4]; 7];
    let mut s = nothing_known(task.min);
    for (i, kept) in keep.iter().enumerate() {
        s = resample_cell(ramp, task, *kept, i, s, rows, counts, &mut drawn);
    }
    s.tries
}
