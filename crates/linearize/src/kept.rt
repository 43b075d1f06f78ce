// The counts of cells that are kept: what a list after a resampling asks of them.
ghost use Rattle.std.specs.Prelude.{◌≡◌};
ghost use Rattle.refusals.specs.Refusals.{bad_record};
ghost use Rattle.stops.specs.Answers.{on_fine};
ghost use Rattle.linearize.specs.Relist.{count_fits, kept_good};
ghost use Rattle.linearize.specs.declared.Listed.TheVariants as listed;

use crate::Listed;
use places::count_at;
use refusals::BAD_RECORD;
use sampling::Sampler;
use stops::Checked;

// The count of a kept cell is 1 to 128.
#[tactic(auto, unfolding(crate::specs::Relist::count_fits))]
fn count_fits(kept: bool, n: usize) -> bool
    ensures { result ≡ count_fits kept n }
{
    !kept || (1..=Sampler::ROW).contains(&n)
}

// The counts of all cells kept are. Without a count a cell has 0.
pub(crate) fn kept_good(keep: [bool; 36], counts: &[u8]) -> bool
    ensures { result ≡ kept_good keep counts.now }
{
    keep.iter()
        .enumerate()
        .all(|(i, kept)| count_fits(*kept, count_at(counts, i)))
}

// The refusal of a record in which the count of a kept cell is none: that of the check before it, or 5.
pub(crate) fn refused_by(checked: Checked) -> Listed
    ensures { result ≡ listed.Refused (on_fine checked bad_record (λ n. n)) }
{
    match checked {
        Checked::Refused(n) => Listed::Refused(n),
        Checked::Fine => Listed::Refused(BAD_RECORD),
    }
}
