// One place. The contracts speak of the machine that the files' words are, with any memory.
ghost use Rattle.std.specs.Prelude.{◌≡◌, List, ℕ};
ghost use Rattle.bits.specs.Pick.{pick};
ghost use Rattle.slots.specs.Places.{Memory, place};
ghost use Rattle.machine.specs.Machine.{get, put};
ghost use Rattle.layout.specs.Layout.{file_is, machine_of};

use crate::ends::renew;
use crate::table::{RegisterFile, STATE_WORDS, of_buffer, row};

// Word i of a file; 0 past its end.
#[tactic(auto, using(crate::proofs::Laid::cell_fits))]
pub fn read(files: &[u32; STATE_WORDS], file: RegisterFile, i: usize) -> u32
    ensures { (mem : List ℕ) → result ≡ get (machine_of files.now mem) (place (file_is file) i) }
{
    let (start, size) = row(file);
    if i < size {
        return files[start + i];
    }
    0
}

// The same where it is used, else 0.
pub fn read_if(used: bool, files: &[u32; STATE_WORDS], file: RegisterFile, i: usize) -> u32
    ensures { (mem : List ℕ) → result
        ≡ pick used (get (machine_of files.now mem) (place (file_is file) i)) 0 }
{
    if used {
        return read(files, file, i);
    }
    0
}

// Nothing is stored past the file's end. A base or length register renews the end of its buffer.
#[tactic(auto, using(crate::proofs::Laid::cell_fits))]
pub fn write(files: &mut [u32; STATE_WORDS], file: RegisterFile, i: usize, v: u32)
    ensures { (mem : List ℕ) → machine_of files.new mem
        ≡ put (machine_of files.old mem) (place (file_is file) i) v }
{
    let (start, size) = row(file);
    if i < size {
        files[start + i] = v;
        if of_buffer(file) {
            renew(files, i);
        }
    }
}

// Memory's word i; 0 past its end. Beside read and write, since clauses on registers and on memory speak of different parts of the
// machine.
pub fn load(memory: &[u32], i: usize) -> u32
    ensures { (ws : List ℕ) → result ≡ get (machine_of ws memory.now) (place Memory i) }
{
    memory.get(i).copied().unwrap_or(0)
}

// By a test, since no clause of get_mut tells what the element becomes.
pub fn save(memory: &mut [u32], i: usize, v: u32)
    ensures { (ws : List ℕ) → machine_of ws memory.new
        ≡ put (machine_of ws memory.old) (place Memory i) v }
{
    if i < memory.len() {
        memory[i] = v;
    }
}
