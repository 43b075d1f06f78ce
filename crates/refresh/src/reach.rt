// Which cells of a record are clear of an edit: the stretch that the edit reaches, and the cells that lie outside it.
ghost use Rattle.std.specs.Prelude.{◌≡◌, true, ◌<◌};
ghost use Rattle.sampling.specs.Constants.{cells};
ghost use Rattle.refresh.specs.reach.Stretch.{outside_of, cell_clear};
ghost use Rattle.refresh.specs.reach.KeptCells.{is_domain, kept_cells};

use crate::reach::stretch::{Stretch, is_clear};
use sampling::Sampler;
use sampling::cells::edge;
use std::array;

pub mod stretch;

// Whether these are the ends of a domain, as of every ramp that passes the check of a sampling.
#[tactic(auto, unfolding(crate::specs::reach::KeptCells::is_domain))]
fn is_domain(min: f32, max: f32) -> bool
    ensures { result ≡ is_domain min max }
{
    -Sampler::FARTHEST <= min && min <= max && max <= Sampler::FARTHEST
}

// Whether cell i is clear of the stretch.
fn is_cell_clear(s: Stretch, min: f32, max: f32, i: usize) -> bool
    requires { (is_domain min max ≡ true) × (i < cells) }
    ensures { result ≡ cell_clear (outside_of s) min max i }
{
    let t0 = edge(min, max, i);
    let t1 = edge(min, max, i + 1);
    is_clear(s, t0, t1)
}

// The cells of a domain that an edit with this stretch leaves as they are: those that are clear of it. Where there is no
// domain, none is.
pub(crate) fn kept_cells(min: f32, max: f32, s: Stretch) -> [bool; 36]
    ensures { result ≡ kept_cells min max s }
{
    if !is_domain(min, max) {
        return [false; 36];
    }
    array::from_fn(|i| is_cell_clear(s, min, max, i))
}
