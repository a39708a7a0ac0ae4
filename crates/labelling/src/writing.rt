// The one labelling that words draw.
ghost use Rattle.std.specs.Prelude.{length, slice_index};
ghost use Rattle.network.specs.Refusals.{numbered};
ghost use Rattle.yard.specs.Meaning.{yard_tracks};
ghost use Rattle.labelling.specs.Told.{LabelAnswer};

use crate::forest::Forest;
use crate::settling::settle_forest;
use label::Label;
use network::track::Refusal;
use yard::Yard;

// Writes the one labelling in which the open tracks outside the forest, in rising number, carry the draws of the words
// in their order, and answers how many words that takes. Refuses with 7 where the list is not as long as the track list,
// else with 8 where there are fewer words than needed, and then leaves the list as it was.
pub fn label_tracks<K: Label>(
    yard: &Yard,
    words: &[u64],
    labels: &mut [K],
) -> Result<usize, Refusal>
    ensures { LabelAnswer K.group (yard_tracks yard.now) (λ i. K.drawn (slice_index words.now i)) (length words.now) labels.old labels.new (numbered result) }
{
    if labels.len() != yard.tracks().len() {
        return Err(Refusal::WrongLength);
    }
    let forest = Forest::of(yard);
    let needed = forest.chord_count();
    if words.len() < needed {
        return Err(Refusal::TooFewWords);
    }
    forest.draw_chords(words, labels);
    settle_forest(&forest, labels);
    Ok(needed)
}
