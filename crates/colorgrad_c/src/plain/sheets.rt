// The sorts of list of a sheet by their numbers, and what is told of a sheet's answer.
ghost use Rattle.std.specs.Prelude.{◌≡◌};
ghost use Rattle.sheet.specs.Answers.{number_of_sheet};
ghost use Rattle.colorgrad_c.specs.plain.Telling.{telling};
ghost use Rattle.colorgrad_c.specs.plain.Sheets.{sort_of, sheet_told};

use crate::plain::telling::tell;
use sheet::{ListSort, SheetAnswer};

// 0 is the list that thinning makes, any other number the one within the hold.
#[tactic(auto, unfolding(crate::specs::plain::Sheets::sort_of))]
pub(crate) fn list_sort_of(list: u32, hold: f32) -> ListSort
    ensures { result ≡ sort_of list hold }
{
    if list == 0 {
        ListSort::Thinned
    } else {
        ListSort::Within(hold)
    }
}

// Tells how many stops the ramp has now, which are as many as there were where nothing is changed; how many the list has,
// and the evaluations.
pub(crate) fn tell_sheet(stops: usize, answer: SheetAnswer, told: &mut [usize]) -> u32
    ensures value { result ≡ number_of_sheet answer }
    ensures told_value { told.new ≡ telling (sheet_told stops answer) told.old }
{
    match answer {
        SheetAnswer::Done {
            stops: left,
            listed,
            evaluations,
        } => {
            tell(told, &[left, listed, evaluations]);
            0
        }
        SheetAnswer::Unlisted {
            stops: left,
            number,
        } => {
            tell(told, &[left, 0, 0]);
            number as u32
        }
        SheetAnswer::Refused(number) => {
            tell(told, &[stops, 0, 0]);
            number as u32
        }
    }
}
