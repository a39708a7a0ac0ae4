// Lists of labels and words for the tests.
use label::Label;
use std::alloc::{AllocError, Global};

// The labels that these words draw, one for each.
pub(crate) fn drawn<K: Label>(heap: Global, words: &[u64]) -> Result<Vec<K>, AllocError> {
    words.iter().map(|word| K::draw(*word)).collect(heap)
}

// So many words, all different.
pub(crate) fn many_words(heap: Global, count: usize) -> Result<Vec<u64>, AllocError> {
    (0..count)
        .map(|number| {
            (number as u64)
                .wrapping_add(1)
                .wrapping_mul(0x9e37_79b9_7f4a_7c15)
        })
        .collect(heap)
}

// Whether two lists have the same labels.
pub(crate) fn alike<K: Label>(some: &[K], others: &[K]) -> bool {
    some.len() == others.len() && some.iter().zip(others).all(|(one, other)| one.same(other))
}
