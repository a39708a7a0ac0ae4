// Judging labels from any hand.
ghost use Rattle.std.specs.Prelude.{◌≡◌};
ghost use Rattle.network.specs.Refusals.{numbered};
ghost use Rattle.yard.specs.Meaning.{yard_tracks};
ghost use Rattle.judging.specs.Judged.{JudgeAnswer};

use crate::leads::Leads;
use label::Label;
use labelling::balances;
use network::track::Refusal;
use sheet::record::Sheet;
use yard::Yard;

// Judges labels on a yard. Accepts them exactly if they balance, only bridges and shut tracks carry zero, and any two different
// tracks with equal or opposite labels other than zero are a cut pair, and then writes the sheet: the letter of the kind and the
// marks of the yard. Else refuses, with 7 where there is not one label for each track, or with 9 where they do not balance, or
// with 10, and leaves the sheet as it was.
pub fn judge<K: Label>(yard: &Yard, labels: &[K], sheet: &mut Sheet) -> Result<(), Refusal>
    ensures { JudgeAnswer K.group K.LETTER (yard_tracks yard.now) labels.now sheet.old sheet.new (numbered result) }
{
    let tracks = yard.tracks();
    if labels.len() != tracks.len() {
        return Err(Refusal::WrongLength);
    }
    if !balances(yard, labels) {
        return Err(Refusal::Unbalanced);
    }
    let leads = Leads::of(labels);
    if !leads.are_confirmed(yard) {
        return Err(Refusal::DrawAgain);
    }
    let marks = leads.marks(tracks);
    sheet.rewrite(K::LETTER, &marks[..tracks.len()]).unwrap();
    Ok(())
}
