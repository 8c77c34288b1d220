// A state by value from its words, and back.
ghost use Rattle.std.specs.Prelude.{◌≡◌, List, ◌++◌, ℕ, ◌+◌, ◌≤◌, ◌<◌};
ghost use Rattle.std.proofs.Math.ListN as lists;
ghost use Rattle.machine.specs.Machine.{machine};
ghost use Rattle.layout.specs.Layout as layout;

use layout::ends::BUFFERS;
use layout::table::{
    BASE_AT, DAB_AT, END_AT, FLAGS_AT, J_AT, K_AT, LENGTH_AT, R_AT, STATE_WORDS, THR_AT, TR_AT,
};
use layout::two_words::{from_words, high_word, low_word};
use machine::state::{State, zero_state};
use std::array;

// The N words from index at on.
fn file<const N: usize>(words: &[u32], at: usize) -> [u32; N]
    requires { at + N ≤ lists.length words.now }
    ensures { result ≡ lists.take N (lists.drop at words.now) }
{
    let mut file = [0; N];
    file.copy_from_slice(&words[at..at + N]);
    file
}

// The ends that 16 words are.
fn read_ends(words: &[u32]) -> [u64; BUFFERS]
    requires { lists.length words.now ≡ 16 }
    ensures { result ≡ layout.ends_of words.now }
{
    array::from_fn(|i| from_words(words[2 * i], words[2 * i + 1]))
}

// The words of eight ends.
fn split_ends(ends: [u64; BUFFERS]) -> [u32; 16]
    ensures { result ≡ layout.words_of_ends ends }
{
    let mut words = [0u32; 16];
    for (i, end) in ends.iter().enumerate() {
        words[2 * i] = low_word(*end);
        words[2 * i + 1] = high_word(*end);
    }
    words
}

// The state that 246 words are.
fn read_files(words: &[u32]) -> State
    requires { lists.length words.now ≡ layout.state_words }
    ensures { result ≡ layout.state_of words.now }
{
    State {
        r: file(words, R_AT),
        tr: file(words, TR_AT),
        thr: file(words, THR_AT),
        j: file(words, J_AT),
        k: file(words, K_AT),
        base: file(words, BASE_AT),
        length: file(words, LENGTH_AT),
        flags: file(words, FLAGS_AT),
        end: read_ends(&words[END_AT..DAB_AT]),
        dab: file(words, DAB_AT),
    }
}

// The state that words are; the zero state where they are not 246.
pub fn state_of(words: &[u32]) -> State
    ensures { result ≡ layout.state_from words.now }
{
    if words.len() == STATE_WORDS {
        return read_files(words);
    }
    zero_state()
}

// A caller's words into a run's array; words that are not 246 are not read.
pub fn read_words(words: &[u32], files: &mut [u32; STATE_WORDS])
    ensures { files.new ≡ layout.words_read words.now files.old }
{
    if words.len() == STATE_WORDS {
        files.copy_from_slice(words);
    }
}

// A run's array into a caller's words; words that are not 246 are kept.
pub fn write_words(files: &[u32; STATE_WORDS], words: &mut [u32])
    ensures { words.new ≡ layout.state_written (layout.state_of files.now) words.old }
{
    if words.len() == STATE_WORDS {
        words.copy_from_slice(files);
    }
}

// The words of a state: the same machine.
pub fn words_of(state: State) -> [u32; STATE_WORDS]
    ensures { (result ≡ layout.words_of_state state)
        × ((mem : List ℕ) → layout.machine_of result mem ≡ machine state mem) }
{
    let mut words = [0u32; STATE_WORDS];
    let files = &mut words[..];
    files[R_AT..TR_AT].copy_from_slice(&state.r);
    files[TR_AT..THR_AT].copy_from_slice(&state.tr);
    files[THR_AT..J_AT].copy_from_slice(&state.thr);
    files[J_AT..K_AT].copy_from_slice(&state.j);
    files[K_AT..BASE_AT].copy_from_slice(&state.k);
    files[BASE_AT..LENGTH_AT].copy_from_slice(&state.base);
    files[LENGTH_AT..FLAGS_AT].copy_from_slice(&state.length);
    files[FLAGS_AT..END_AT].copy_from_slice(&state.flags);
    files[END_AT..DAB_AT].copy_from_slice(&split_ends(state.end));
    files[DAB_AT..STATE_WORDS].copy_from_slice(&state.dab);
    words
}

// The state that a run's array of words is.
pub fn gathered(files: &[u32; STATE_WORDS]) -> State
    ensures { result ≡ layout.state_of files.now }
{
    read_files(files)
}
