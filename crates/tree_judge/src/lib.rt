// The judge: each item of a tree in tokens is labelled with its state under a restriction. The state of the whole tree says whether the
// restriction is possible.
#![tactic(auto)]

ghost use Rattle.std.specs.Prelude.{◌≡◌, ◌++◌, ℕ, ◌<◌, ◌≤◌, length, take};
ghost use Rattle.std.proofs.Math.Seq.{slice};
ghost use Rattle.mark_words.specs.Marks.{marked};
ghost use Rattle.spec_orders.specs.Tree.{Kind};
ghost use Rattle.tree_tokens.specs.Tokens.{State, number, Judged, tree, leaf_token, node_token, encode, Tokens, Wrote};
ghost use Rattle.tree_judge.specs.Judge.{leaf_state, states, judge};
ghost use Rattle.tree_judge.specs.Automaton.{Run, start, step, runs, verdict, code, Moves};

// The automaton in numbers: a row for each run, and in it the run after one more item of each state.
pub const MOVES: [[u8; 5]; 17] = [
    [1, 2, 4, 6, 7],
    [1, 3, 4, 6, 7],
    [3, 2, 4, 7, 7],
    [3, 3, 4, 7, 7],
    [4, 4, 5, 7, 7],
    [5, 5, 7, 7, 7],
    [6, 7, 7, 7, 7],
    [7, 7, 7, 7, 7],
    [9, 10, 11, 15, 16],
    [9, 13, 12, 15, 16],
    [14, 10, 14, 16, 16],
    [14, 13, 15, 16, 16],
    [15, 13, 15, 16, 16],
    [15, 13, 15, 16, 16],
    [14, 16, 16, 16, 16],
    [15, 16, 16, 16, 16],
    [16, 16, 16, 16, 16],
];

// Where the automaton goes on one more item of state s; `moves` is the table.
pub fn moved(moves: &[[u8; 5]; 17], run: u8, s: u16) -> u8
    requires { (run < 17) × (s ≤ 4) × Moves moves.now }
    ensures { (result < 17) × ((q : Run) (z : State) → run ≡ code q → s ≡ number z → result ≡ code (step q z)) }
{
    let q = run as usize;
    let z = s as usize;
    moves[q][z]
}

// The number of the state of a node whose items took the automaton here.
pub fn verdict(run: u8) -> u16
    ensures { (result ≤ 4) × ((q : Run) → run ≡ code q → result ≡ number (verdict q)) }
{
    let table: [u16; 17] = [0, 0, 1, 2, 2, 3, 3, 4, 0, 0, 1, 2, 2, 2, 2, 3, 4];
    let i = run as usize;
    if i < 17 {
        return table[i];
    }
    0
}

// The number of a leaf's state, by its token.
fn leaf_state(t: u16, marks: &[u64]) -> u16
    ensures { (result < 2) × ((z : State) (b : ℕ) → t ≡ leaf_token z b → result ≡ number (leaf_state (marked marks.now b))) }
{
    if mark_words::test(marks, t / 16) {
        return 1;
    }
    0
}

// Where the automaton starts on a node's items, by its token.
fn start(t: u16) -> u8
    ensures { (result < 17) × ((z : State) (k : Kind) (m : ℕ) → t ≡ node_token z k m → result ≡ code (start k)) }
{
    if t / 16 % 2 == 1 {
        return 8;
    }
    0
}

// Writes the items in the places from..to of toks to the same places of out, judged; answers where they take the automaton. `last` is the
// state of the leaf just before, or 5 where there is none: another leaf of that state takes the automaton nowhere. By index, since it writes
// to the place from which it reads.
fn judge_items(
    toks: &[u16],
    from: usize,
    to: usize,
    marks: &[u64],
    moves: &[[u8; 5]; 17],
    run: u8,
    out: &mut [u16],
) -> u8
    requires { (Tokens (slice from to toks.now)) × (from ≤ to) × (to ≤ length toks.now) × (length toks.now ≤ length out.old) × (run < 17)
        × Moves moves.now }
    ensures { (result < 17) × ((j : Judged) (q : Run) → slice from to toks.now ≡ encode j → run ≡ code q
        → (result ≡ code (runs q (states (judge (marked marks.now) (tree j)))))
        × Wrote (take from out.old ++ encode (judge (marked marks.now) (tree j))) out.old out.new to) }
{
    let mut at = run;
    let mut last: u16 = 5;
    let mut i = from;
    while i < to {
        let t = toks[i];
        if t / 8 % 2 == 1 {
            let e = i + 1 + (t / 32) as usize;
            let s = verdict(judge_items(toks, i + 1, e, marks, moves, start(t), out));
            out[i] = t - t % 8 + s;
            at = moved(moves, at, s);
            last = 5;
            i = e;
            continue;
        }
        let s = leaf_state(t, marks);
        out[i] = t - t % 8 + s;
        i += 1;
        if s != last {
            at = moved(moves, at, s);
            last = s;
        }
    }
    at
}

// Writes the items to the start of out, each with its state under the marks, whatever state it had.
pub fn judge(toks: &[u16], marks: &[u64], out: &mut [u16])
    requires { (Tokens toks.now) × (length toks.now ≤ length out.old) }
    ensures { (j : Judged) → toks.now ≡ encode j
        → Wrote (encode (judge (marked marks.now) (tree j))) out.old out.new (length toks.now) }
{
    judge_items(toks, 0, toks.len(), marks, &MOVES, 0, out);
}
