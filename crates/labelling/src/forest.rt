// The forest of a yard and its chords, the open tracks outside the forest: how many there are, and what words draw for them.
ghost use Rattle.std.specs.Prelude.{◌≡◌, ℕ, ◌<◌, ◌≤◌, not, ◌&&◌, count_by, length, Decides, slice_index};
ghost use Rattle.std.specs.List.{zip};
ghost use Rattle.graph.specs.Degrees.{flagged};
ghost use Rattle.graph.specs.Forests.{InForest, WordsNeeded};
ghost use Rattle.labelling.specs.Settled.{ChordsDrawn};
ghost use Rattle.yard.specs.Meaning.{yard_tracks};

use label::Label;
use network::TRACKS;
use network::track::Track;
use yard::{Yard, is_chord};

// How many tracks are chords, by the flags of the forest.
fn count_chords(tracks: &[Track], flags: &[bool]) -> usize
    ensures { result ≡ count_by (λ p. not p.0.shut && not p.1) (zip tracks.now flags.now) }
{
    // as a sum of zeros and ones, without a branch: `filter` and `count` take one at each track, mispredicted at every fifth of a random yard
    tracks
        .iter()
        .zip(flags)
        .map(|(one, flag)| usize::from(is_chord(*one, *flag)))
        .sum()
}

// What one of the words draws.
fn draw_word<K: Label>(words: &[u64], number: usize) -> K
    requires { number < length words.now }
    ensures { result ≡ K.drawn (slice_index words.now number) }
{
    K::draw(words[number])
}

// A flag for each track of a yard: whether it is in the forest.
#[derive(Drop)]
pub(crate) struct Forest<'a> {
    pub(crate) yard: &'a Yard,
    pub(crate) flags: [bool; TRACKS],
    ghost room: { length flags ≡ 2048 },
    ghost told: { (t : ℕ) → Decides (flagged flags t) (InForest (yard_tracks yard.now) t) },
}

impl<'a> Forest<'a> {
    pub(crate) fn of(yard: &'a Yard) -> Forest<'a>
        ensures { yard_tracks result.yard.now ≡ yard_tracks yard.now }
    {
        let mut flags = [false; TRACKS];
        let _ = yard.forest(&mut flags[..yard.tracks().len()]);
        Forest { yard, flags }
    }

    // How many chords there are, by the flags: `Yard::words_needed` would join all points once more.
    pub(crate) fn chord_count(&self) -> usize
        ensures { WordsNeeded (yard_tracks self.now.yard.now) result }
    {
        count_chords(self.yard.tracks(), &self.flags)
    }

    // Gives the chords, in rising number, the draws of the words in their order, and every other track zero.
    pub(crate) fn draw_chords<K: Label>(&self, words: &[u64], labels: &mut [K])
        requires long { length labels.old ≡ length (yard_tracks self.now.yard.now) }
        requires enough { (m : ℕ) → WordsNeeded (yard_tracks self.now.yard.now) m → m ≤ length words.now }
        ensures { ChordsDrawn K.group (yard_tracks self.now.yard.now) (λ i. K.drawn (slice_index words.now i)) labels.new (length (yard_tracks self.now.yard.now)) }
    {
        // As a count of the words used: an iterator over the words would need an arm for where they run out. Over the tracks alone: of what goes
        // through `iter_mut().zip(..)` a proof knows nothing.
        let mut used = 0;
        for (number, one) in self.yard.tracks().iter().enumerate() {
            if is_chord(*one, self.flags[number]) {
                labels[number] = draw_word(words, used);
                used += 1;
            } else {
                labels[number] = K::zero();
            }
        }
    }
}
