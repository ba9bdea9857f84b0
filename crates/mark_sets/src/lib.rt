// Sets of leaves as mark words, all at once: the leaves outside a set, whether it is within 1 to n, whether it is empty, and its size.
#![tactic(auto)]

ghost use Rattle.std.specs.Prelude.{◌≡◌, ◌≤◌, ◌-◌, ◌^◌, min, leb, length, [], ◌∷◌};
ghost use Rattle.std.specs.Int.Count.{ones};
ghost use Rattle.spec_orders.specs.Lists.{all_of};
ghost use Rattle.mark_words.specs.Marks.{marked, words_of, leaves_of, no_mark?, outside};

// The word whose k lowest marks are set: all 64 where k is more.
fn low_marks(k: usize) -> u64
    ensures { result ≡ 2 ^ min k 64 - 1 }
{
    if k >= 64 {
        return 0xffff_ffff_ffff_ffff;
    }
    let one: u64 = 1;
    (one << (k as u64)) - 1
}

// Marks the leaves from 1 to n that were not marked, and no other.
pub fn complement(words: &mut [u64], n: usize)
    ensures { words.new ≡ words_of (length words.old) (outside n (marked words.old)) }
{
    let mut left = n;
    for i in 0..words.len() {
        let mask = low_marks(left);
        words[i] = mask ^ (words[i] & mask);
        left = left.saturating_sub(64);
    }
}

// Whether no leaf above n is marked.
pub fn within(words: &[u64], n: usize) -> bool
    ensures { result ≡ all_of (λ b. leb b n) (leaves_of words.now) }
{
    let mut rest = n;
    for &word in words {
        if word & low_marks(rest) != word {
            return false;
        }
        rest = rest.saturating_sub(64);
    }
    true
}

// Whether no leaf is marked.
pub fn is_empty(words: &[u64]) -> bool
    ensures { result ≡ no_mark? words.now }
{
    for &word in words {
        if word != 0 {
            return false;
        }
    }
    true
}

// How many marks the word has.
fn count(word: u64) -> usize
    ensures { (result ≡ ones word) × (result ≤ 64) }
{
    u64::count_ones(word) as usize
}

// How many leaves a group's four words mark.
pub fn size(first: u64, second: u64, third: u64, fourth: u64) -> usize
    ensures { result ≡ length (leaves_of (first ∷ second ∷ third ∷ fourth ∷ [])) }
{
    count(first) + count(second) + count(third) + count(fourth)
}
