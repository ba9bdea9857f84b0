// Sets of leaves as mark words: leaf b is bit (b - 1) % 64 of word (b - 1) / 64, in any number of words.
#![tactic(auto)]

ghost use Rattle.std.specs.Prelude.{◌≡◌, ◌%◌, ◌^◌, length};
ghost use Rattle.mark_words.specs.Marks.{marked, words_of, no_leaf, with_leaf};

// Whether the leaf is marked.
pub fn test(words: &[u64], leaf: u16) -> bool
    ensures { result ≡ marked words.now leaf }
{
    if leaf == 0 {
        return false;
    }
    let i = leaf as usize - 1;
    let w = i / 64;
    if w >= words.len() {
        return false;
    }
    let s = (i % 64) as u64;
    (words[w] >> s) % 2 == 1
}

// The word whose only mark is mark i % 64.
fn one_mark(i: u16) -> u64
    ensures { result ≡ 2 ^ (i % 64) }
{
    let one: u64 = 1;
    one << ((i % 64) as u64)
}

// Marks the leaf, and keeps the other marks. There is no leaf 0 and none past the words: then nothing changes.
pub fn set(words: &mut [u64], leaf: u16)
    ensures { words.new ≡ words_of (length words.old) (with_leaf leaf (marked words.old)) }
{
    if leaf == 0 {
        return;
    }
    let m = leaf - 1;
    let w = (m / 64) as usize;
    if w >= words.len() {
        return;
    }
    words[w] = words[w] | one_mark(m);
}

// Takes every mark away.
pub fn clear(words: &mut [u64])
    ensures { words.new ≡ words_of (length words.old) no_leaf }
{
    words.fill(0);
}
