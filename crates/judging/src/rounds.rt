// Whether leads are right: labels of words of one bit each tell it.
ghost use Rattle.std.specs.Prelude.{◌≡◌, ℕ, ◌<◌, ◌≤◌, length, Some, Decides, slice_index};
ghost use Rattle.graph.specs.Forests.{WordsNeeded};
ghost use Rattle.yard.specs.Meaning.{yard_tracks};
ghost use Rattle.circulation.specs.Units.{unit_word};
ghost use Rattle.judging.specs.Leads.{lead, Led, Confirmed, AgreesAt, Agrees, RoundAgrees};

use crate::leads::Leads;
use label::Label;
use label::xor::Xor;
use labelling::label_tracks;
use network::TRACKS;
use network::track::Track;
use std::array;
use yard::Yard;

// A word of a round: of 64 words one bit each, and none elsewhere.
fn unit_word(round: usize, number: usize) -> u64
    ensures { result ≡ unit_word round number }
{
    if number / 64 == round {
        1u64 << (number % 64)
    } else {
        0
    }
}

// The words of a round, in an array, since judging takes no memory.
fn unit_words(round: usize) -> [u64; TRACKS]
    ensures long { length result ≡ 2048 }
    ensures words { (i : ℕ) → i < 2048 → slice_index result i ≡ unit_word round i }
{
    array::from_fn(|number| unit_word(round, number))
}

impl Leads {
    // Whether the label of a track is that of its lead, or zero where the track is open and has none.
    fn agrees_at(&self, number: usize, track: Track, labels: &[Xor]) -> bool
        requires few { number < 2048 }
        requires there { number < length labels.now }
        ensures { Decides result (AgreesAt track.shut (lead self.now.leads number) labels.now number) }
    {
        match self.leads[number] {
            Some(lead) => labels[number].same(&labels[lead as usize]),
            None => track.shut || labels[number].same(&Xor::zero()),
        }
    }

    // The same of all tracks.
    fn agrees(&self, tracks: &[Track], labels: &[Xor]) -> bool
        requires few { length tracks.now ≤ 2048 }
        requires long { length labels.now ≡ length tracks.now }
        ensures { Decides result (Agrees tracks.now self.now.leads labels.now (length tracks.now)) }
    {
        tracks
            .iter()
            .enumerate()
            .all(|(number, track)| self.agrees_at(number, *track, labels))
    }

    // Whether the labelling of a round agrees; the words of the round are given, as many as are needed, and room for the labels.
    fn round_agrees(&self, yard: &Yard, round: usize, words: &[u64], labels: &mut [Xor]) -> bool
        requires needed { WordsNeeded (yard_tracks yard.now) (length words.now) }
        requires words { (i : ℕ) → i < length words.now → slice_index words.now i ≡ unit_word round i }
        requires labels { length labels.old ≡ length (yard_tracks yard.now) }
        ensures { Decides result (RoundAgrees (yard_tracks yard.now) self.now.leads round) }
    {
        label_tracks(yard, words, labels).unwrap();
        self.agrees(yard.tracks(), labels)
    }

    // Whether the leads are right: open tracks without one are bridges, and others make a cut pair with their lead.
    pub(crate) fn are_confirmed(&self, yard: &Yard) -> bool
        requires { (t l : ℕ) → lead self.now.leads t ≡ Some l → Led (yard_tracks yard.now) t l }
        ensures { Decides result (Confirmed (yard_tracks yard.now) self.now.leads) }
    {
        let needed = yard.words_needed();
        let count = yard.tracks().len();
        let mut labels = [Xor { bits: 0 }; TRACKS];
        // a loop, since the labels are written anew in each round, and of what a closure changes a proof knows nothing
        for round in 0..needed / 64 + 1 {
            let words = unit_words(round);
            if !self.round_agrees(yard, round, &words[..needed], &mut labels[..count]) {
                return false;
            }
        }
        true
    }
}
