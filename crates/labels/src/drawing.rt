// The labels of a yard's tracks, drawn from words in each kind.
ghost use Rattle.std.specs.Prelude.{◌≡◌, length, IfOk, vec_len, Decides, MatchResult, slice_index};
ghost use Rattle.label.specs.Kinds.{xors, sums, pairs};
ghost use Rattle.circulation.specs.Labels.{Balanced};
ghost use Rattle.yard.specs.Meaning.{yard_tracks};
ghost use Rattle.labels.specs.Draws.{Drew, Stopped, Labels};

use label::Label;
use label::both::Both;
use label::sum::Sum32;
use label::xor::Xor;
use labelling::{balances, label_tracks};
use network::stop::Stop;
use std::alloc::{AllocError, Global};
use yard::Yard;

// One label for each track, in the kinds X, S and B of X beside S: a list for each kind, since labelling writes one kind at a time.
#[derive(Drop)]
pub(crate) struct Drawn {
    pub(crate) xors: Vec<Xor>,
    pub(crate) sums: Vec<Sum32>,
    pub(crate) pairs: Vec<Both<Xor, Sum32>>,
}

// A label for each track of a yard, all zero.
fn zeros<K: Label>(heap: Global, yard: &Yard) -> Result<Vec<K>, AllocError>
    ensures { IfOk result (λ v. vec_len v ≡ length (yard_tracks yard.now)) }
{
    yard.tracks().iter().map(|_| K::zero()).collect(heap)
}

// The labels of one kind that words draw, or 8 where there are too few.
fn draw<K: Label>(heap: Global, yard: &Yard, words: &[u64]) -> Result<Vec<K>, Stop>
    ensures { MatchResult result (λ v. Drew K.group (yard_tracks yard.now) (λ i. K.drawn (slice_index words.now i)) (length words.now) v.items) (Stopped (yard_tracks yard.now) (length words.now)) }
{
    let mut labels = zeros(heap, yard)?;
    label_tracks(yard, words, labels.as_mut_slice())?;
    Ok(labels)
}

impl Drawn {
    // The labels of each kind that words draw, or 8 where there are too few. Each list is drawn before the next one is made, so that no memory
    // is taken for more than one of them where words are refused.
    pub(crate) fn of(heap: Global, yard: &Yard, words: &[u64]) -> Result<Drawn, Stop>
        ensures { MatchResult result (λ d. Labels words.now (yard_tracks yard.now) d.xors.items d.sums.items d.pairs.items) (Stopped (yard_tracks yard.now) (length words.now)) }
    {
        let xors = draw(heap, yard, words)?;
        let sums = draw(heap, yard, words)?;
        let pairs = draw(heap, yard, words)?;
        Ok(Drawn { xors, sums, pairs })
    }

    // Whether the labels of each kind balance.
    pub(crate) fn balance(&self, yard: &Yard) -> bool
        ensures { Decides result (Balanced xors (yard_tracks yard.now) self.now.xors.items × Balanced sums (yard_tracks yard.now) self.now.sums.items × Balanced (pairs xors sums) (yard_tracks yard.now) self.now.pairs.items) }
    {
        balances(yard, self.xors.as_slice())
            && balances(yard, self.sums.as_slice())
            && balances(yard, self.pairs.as_slice())
    }
}
