// Decisions with their levels in words: where the words rise, the levels fall.
ghost use Rattle.std.specs.Prelude.{◌≡◌, ◌<◌, ◌≤◌, ℕ, length, map, slice_index_or, vec_capacity};
ghost use Rattle.blic_eval.specs.Packed.{number_in, word_of};

use blic_store::{Ref, Store};
use std::vec::Vec;

/// Makes the words those of the decisions.
pub(crate) fn pack(store: &Store, numbers: &[u32], words: &mut Vec<u64>)
    requires held { (i : ℕ) → i < length numbers.now → slice_index_or numbers.now i 0 < length store.now.nodes }
    requires room { length numbers.now ≤ vec_capacity words.old }
    ensures words { words.new.items ≡ map (word_of store.now.nodes) numbers.now }
    ensures capacity { vec_capacity words.new ≡ vec_capacity words.old }
{
    store.canonical_law();
    words.clear();
    for &k in numbers {
        words.push_reserved(word(store, k));
    }
}

// A decision with its level: the decision's number stands in the low half.
fn word(store: &Store, k: u32) -> u64
    requires { k < length store.now.nodes }
    ensures { result ≡ word_of store.now.nodes k }
{
    store.canonical_law();
    let level = store.level(Ref::numbered(k + 2));
    u64::from(u32::MAX - level) * 4_294_967_296 + u64::from(k)
}

/// Makes the numbers those of the words' decisions.
pub(crate) fn unpack(words: &[u64], numbers: &mut Vec<u32>)
    requires { length words.now ≤ vec_capacity numbers.old }
    ensures numbers { numbers.new.items ≡ map number_in words.now }
    ensures capacity { vec_capacity numbers.new ≡ vec_capacity numbers.old }
{
    numbers.clear();
    for &word in words {
        numbers.push_reserved((word % 4_294_967_296) as u32);
    }
}
