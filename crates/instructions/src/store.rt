// A slot's store.
ghost use Rattle.std.specs.Prelude.{◌≡◌, true};
ghost use Rattle.machine.specs.Fetches.{puts};
ghost use Rattle.layout.specs.Layout.{machine_of};
ghost use Rattle.instructions.specs.Held.{end_held};
ghost use Rattle.instructions.specs.Storing.{store_of};

use crate::block_store::{
    store_alu, store_despread, store_shifter, store_tmax, store_transfer, store_trellis,
};
use crate::dab_load::store_dab_load;
use crate::fetch::{HELD_WORDS, circular_held};
use crate::ialu_store::{store_access, store_arith, store_buffer};
use layout::table::STATE_WORDS;
use slots::slot::Slot;

// Made from the words v that the slot holds. That v has a right end is no type of v, since the definitions hold plain words (`fetch_of`).
pub fn store_slot(
    slot: Slot,
    loaded: bool,
    v: [u32; HELD_WORDS],
    files: &mut [u32; STATE_WORDS],
    memory: &mut [u32],
)
    requires { end_held slot v ≡ true }
    ensures { machine_of files.new memory.new
        ≡ puts (store_of loaded slot v) (machine_of files.old memory.old) }
{
    match slot {
        Slot::Alu(block, op, target, _, _) => store_alu(block, op, target, v, files),
        Slot::Shifter(block, op, target, _, _) => store_shifter(block, op, target, v, files),
        Slot::Trellis(block, op, target, _, _, _) => store_trellis(block, op, target, v, files),
        Slot::Tmax(block, op, target, _, _) => store_tmax(block, op, target, v, files),
        Slot::Despread(..) => store_despread(slot, loaded, v, files),
        Slot::Transfer(block, op, target, _) => store_transfer(block, op, target, v, files),
        Slot::Arith(ialu, op, target, _, _, _) => store_arith(
            ialu,
            op,
            target,
            v,
            circular_held(v),
            files,
        ),
        Slot::Buffer(ialu, op, target, _) => store_buffer(ialu, op, target, v, files),
        Slot::Access(..) => store_access(slot, v, files, memory),
        Slot::DabLoad(ialu, block, target, first, _) => {
            store_dab_load(ialu, block, target, first, v, circular_held(v), files)
        }
    }
}
