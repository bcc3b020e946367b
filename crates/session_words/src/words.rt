// Values that stand as words in a session: each has so many, from a place on, and arrays of them follow one after the other.
ghost use Rattle.std.specs.Prelude.{◌≡◌, ℕ, Bool, true, List, ◌+◌, ◌*◌, ◌≤◌, length, drop};
ghost use Rattle.std.proofs.lemmas.List.Edits.{sets};
ghost use Rattle.counting.specs.Every.{every};
ghost use Rattle.session_words.specs.Items.{joined, items_of};
ghost use Rattle.session_words.specs.Piano.{flag_word, flag_of, is_flag, float_word, float_of, count_word, count_of};

use std::array;

pub trait Words: Copy {
    // How many words a value has.
    const SIZE: usize;

    ghost SIZE: { ℕ };

    // A value's words; the value that words begin with, whatever they are; and whether they are a value's.
    ghost words_of: { Self → List ℕ };

    ghost value_of: { List ℕ → Self };

    ghost has_meaning: { List ℕ → Bool };

    fn put(&self, words: &mut [u64], at: usize)
        requires { at + SIZE ≤ length words.old }
        ensures stored { words.new ≡ sets words.old at (words_of self.now) }
        ensures size { length (words_of self.now) ≡ SIZE };

    fn read(words: &[u64], at: usize) -> Self
        requires { at + SIZE ≤ length words.now }
        ensures { result ≡ value_of (drop at words.now) };

    fn stands_at(words: &[u64], at: usize) -> bool
        requires { at + SIZE ≤ length words.now }
        ensures { result ≡ has_meaning (drop at words.now) };
}

pub fn put_items<T: Words>(items: &[T], words: &mut [u64], at: usize)
    requires { at + T.SIZE * length items.now ≤ length words.old }
    ensures stored { words.new ≡ sets words.old at (joined T.words_of items.now) }
    ensures size { length (joined T.words_of items.now) ≡ T.SIZE * length items.now }
{
    for (i, item) in items.iter().enumerate() {
        item.put(words, at + T::SIZE * i);
    }
}

pub fn items_at<T: Words, const N: usize>(words: &[u64], at: usize) -> [T; N]
    requires { at + T.SIZE * N ≤ length words.now }
    ensures { result ≡ items_of T.value_of T.SIZE N (drop at words.now) }
{
    array::from_fn(
        |i|
            requires { at + T.SIZE * i + T.SIZE ≤ length words.now }
            ensures { result ≡ T.value_of (drop (at + T.SIZE * i) words.entry.now) }
        { T::read(words, at + T::SIZE * i) },
    )
}

// Whether each of the first n has a meaning.
pub fn all_stand<T: Words>(words: &[u64], at: usize, n: usize) -> bool
    requires { at + T.SIZE * n ≤ length words.now }
    ensures { result ≡ every (items_of T.has_meaning T.SIZE n (drop at words.now)) }
{
    (0..n).all(
        |i|
            requires { at + T.SIZE * i + T.SIZE ≤ length words.now }
            ensures { result ≡ T.has_meaning (drop (at + T.SIZE * i) words.entry.now) }
        { T::stands_at(words, at + T::SIZE * i) },
    )
}

// A bool is 1 or 0.
impl Words for bool {
    const SIZE: usize = 1;

    ghost SIZE = { 1 };

    ghost words_of = { flag_word };

    ghost value_of = { flag_of };

    ghost has_meaning = { is_flag };

    fn put(&self, words: &mut [u64], at: usize) {
        words[at] = u64::from(*self);
    }

    fn read(words: &[u64], at: usize) -> bool {
        words[at] == 1
    }

    fn stands_at(words: &[u64], at: usize) -> bool {
        words[at] <= 1
    }
}

// A float is its bits: any word is one, and that of every NaN is read as NaN.
impl Words for f64 {
    const SIZE: usize = 1;

    ghost SIZE = { 1 };

    ghost words_of = { float_word };

    ghost value_of = { float_of };

    ghost has_meaning = { λ _. true };

    fn put(&self, words: &mut [u64], at: usize) {
        words[at] = little_endian::bits_of(*self);
    }

    fn read(words: &[u64], at: usize) -> f64 {
        little_endian::float_of(words[at])
    }

    fn stands_at(_words: &[u64], _at: usize) -> bool {
        true
    }
}

impl Words for u64 {
    const SIZE: usize = 1;

    ghost SIZE = { 1 };

    ghost words_of = { count_word };

    ghost value_of = { count_of };

    ghost has_meaning = { λ _. true };

    fn put(&self, words: &mut [u64], at: usize) {
        words[at] = *self;
    }

    fn read(words: &[u64], at: usize) -> u64 {
        words[at]
    }

    fn stands_at(_words: &[u64], _at: usize) -> bool {
        true
    }
}
