// Places side by side: N words read, and the first n of some words stored, from index i on. Inlined, so that where the number of words
// is known no loop is left.
ghost use Rattle.std.specs.Prelude.{◌≡◌, ◌+◌, ◌≤◌, List, ℕ, length, map};
ghost use Rattle.machine.specs.Machine.{get};
ghost use Rattle.slots.specs.Places.{Memory, places};
ghost use Rattle.machine.specs.Fetches.{assign, puts};
ghost use Rattle.layout.specs.Layout.{file_is, machine_of};

use crate::cell;
use crate::table::{RegisterFile, STATE_WORDS};
use std::array;

// A loop: array::from_fn of four words is not inlined here, and with it a run of unaligned reads takes a sixth longer.
#[inline(always)]
pub fn get<const N: usize>(files: &[u32; STATE_WORDS], file: RegisterFile, i: usize) -> [u32; N]
    requires { i + N ≤ 18446744073709551616 }
    ensures { (mem : List ℕ) → result ≡ map (get (machine_of files.now mem)) (places (file_is file) i N) }
{
    let mut words = [0; N];
    for k in 0..N {
        words[k] = cell::read(files, file, i + k);
    }
    words
}

#[inline(always)]
pub fn load<const N: usize>(memory: &[u32], i: usize) -> [u32; N]
    requires { i + N ≤ 18446744073709551616 }
    ensures { (ws : List ℕ) → result ≡ map (get (machine_of ws memory.now)) (places Memory i N) }
{
    array::from_fn(|k| cell::load(memory, i + k))
}

#[inline(always)]
pub fn put(n: u32, files: &mut [u32; STATE_WORDS], file: RegisterFile, i: usize, words: &[u32])
    requires { i + length words.now ≤ 18446744073709551616 }
    ensures { (mem : List ℕ) → machine_of files.new mem
        ≡ puts (assign (places (file_is file) i n) words.now) (machine_of files.old mem) }
{
    for (k, word) in words.iter().enumerate() {
        if k < n as usize {
            cell::write(files, file, i + k, *word);
        }
    }
}

#[inline(always)]
pub fn save(n: u32, memory: &mut [u32], i: usize, words: &[u32])
    requires { i + length words.now ≤ 18446744073709551616 }
    ensures { (ws : List ℕ) → machine_of ws memory.new
        ≡ puts (assign (places Memory i n) words.now) (machine_of ws memory.old) }
{
    for (k, word) in words.iter().enumerate() {
        if k < n as usize {
            cell::save(memory, i + k, *word);
        }
    }
}
