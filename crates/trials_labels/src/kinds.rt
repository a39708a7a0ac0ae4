// Kinds made of kinds, and a kind with a single label.
ghost use Rattle.std.specs.Prelude.{refl};

use crate::lists::drawn;
use boundary::yard_of;
use label::Label;
use label::both::Both;
use label::sum::Sum32;
use label::xor::Xor;
use labelling::{balances, label_tracks};
use network::track::Track;
use std::test::Fail;

const WORD: u64 = 0x1111_2222_3333_4444;

// The first part comes from the word, the second from the word rotated by 32 bits.
#[test]
fn both_draws_the_rotated_word(rt: HostRuntime) -> Result<(), Fail> {
    let two = yard_of(rt.alloc(), &[Track::open(0, 1), Track::open(0, 1)])?;
    let mut labels = drawn::<Both<Xor, Sum32>>(rt.alloc(), &[0, 0])?;
    assert_eq!(rt; label_tracks(&two, &[WORD], labels.as_mut_slice())?, 1);
    assert!(rt; labels.len() == 2);
    assert_eq!(rt; labels[1].left.bits, WORD);
    assert_eq!(rt; labels[1].right.value, 0x1111_2222);
    assert_eq!(rt; labels[0].left.bits, WORD);
    assert_eq!(rt; labels[0].right.value, 0xeeee_ddde);
    assert!(rt; balances(&two, labels.as_slice()));
    Ok(())
}

// A label of kind B may be a part of one: the word goes on to its parts, rotated for each second one.
#[test]
fn both_nests(rt: HostRuntime) -> Result<(), Fail> {
    let two = yard_of(rt.alloc(), &[Track::open(0, 1), Track::open(0, 1)])?;
    let mut labels = drawn::<Both<Both<Sum32, Xor>, Sum32>>(rt.alloc(), &[0, 0])?;
    assert_eq!(rt; label_tracks(&two, &[WORD], labels.as_mut_slice())?, 1);
    assert!(rt; labels.len() == 2);
    assert_eq!(rt; labels[1].left.left.value, 0x3333_4444);
    assert_eq!(rt; labels[1].left.right.bits, 0x3333_4444_1111_2222);
    assert_eq!(rt; labels[1].right.value, 0x1111_2222);
    assert_eq!(rt; labels[0].left.left.value, 0xcccc_bbbc);
    assert!(rt; balances(&two, labels.as_slice()));
    Ok(())
}

// The one label.
#[derive(Drop)]
struct Only;

impl Label for Only {
    const LETTER: u8 = b'1';

    ghost LETTER = { 49 };

    ghost group = { record { zero = record {}; sum = λ _ _. record {}; opposite = λ a. a; assoc = λ _ _ _. refl; comm = λ _ _. refl; unit = λ _. refl; inverse = λ _. refl } };

    ghost drawn = { λ _. record {} };

    fn zero() -> Self {
        Only
    }

    fn sum(&self, _other: &Self) -> Self {
        Only
    }

    fn opposite(&self) -> Self {
        Only
    }

    fn same(&self, _other: &Self) -> bool {
        true
    }

    fn draw(_word: u64) -> Self {
        Only
    }
}

// In a kind with a single label every list that is long enough balances.
#[test]
fn a_single_label(rt: HostRuntime) -> Result<(), Fail> {
    let yard = yard_of(
        rt.alloc(),
        &[Track::open(0, 1), Track::open(1, 2), Track::open(2, 2)],
    )?;
    let mut labels = drawn::<Only>(rt.alloc(), &[1, 2, 3])?;
    assert!(rt; balances(&yard, labels.as_slice()));
    assert_eq!(rt; label_tracks(&yard, &[5], labels.as_mut_slice())?, 1);
    assert!(rt; label_tracks(&yard, &[], labels.as_mut_slice()).is_err());
    assert!(rt; balances(&yard, labels.as_slice()));
    labels.truncate(2);
    assert!(rt; !balances(&yard, labels.as_slice()));
    Ok(())
}
