// What the users' C debugger links, as libdebugger.a: the check, the condition and the runs, each with the library's contract.
#![tactic(auto)]

ghost use Rattle.std.specs.Prelude.{◌≡◌};
ghost use Rattle.bytecheck.specs.ByteCheck.{check_of_bytes};
ghost use Rattle.debugger.specs.FlatRuns as flats;

// The check call over an image's bytes: over 65,536 bytes is 1, else a broken word 2.
#[unsafe(no_mangle)]
pub extern "C" fn ts201_check(image: &[u8]) -> u32
    ensures { result ≡ check_of_bytes image.now }
{
    debugger::ts201_check(image)
}

// The check call over an image's words: code, line and slot into the report.
#[unsafe(no_mangle)]
pub extern "C" fn ts201_check_words(image: &[u32], report: &mut [u32]) -> u32
    ensures { flats.checked result report.new ≡ flats.flat_check image.now report.old }
{
    debugger::ts201_check_words(image, report)
}

// The condition call: 1 for yes, 0 for no.
#[unsafe(no_mangle)]
pub extern "C" fn ts201_condition(number: u32, state: &[u32]) -> u32
    ensures { result ≡ flats.flat_condition number state.now }
{
    debugger::ts201_condition(number, state)
}

// The plain run: state and memory are changed in place, and the report is written.
#[unsafe(no_mangle)]
pub extern "C" fn ts201_run(
    image: &[u32],
    state: &mut [u32],
    memory: &mut [u32],
    report: &mut [u32],
) -> u32
    ensures { flats.flat result state.new memory.new report.new
        ≡ flats.flat_run image.now state.old memory.old report.old }
{
    debugger::ts201_run(image, state, memory, report)
}

// The ordered run, likewise.
#[unsafe(no_mangle)]
pub extern "C" fn ts201_run_ordered(
    image: &[u32],
    orders: &[u8],
    limit: u64,
    state: &mut [u32],
    memory: &mut [u32],
    report: &mut [u32],
) -> u32
    ensures { flats.flat result state.new memory.new report.new
        ≡ flats.flat_ordered image.now orders.now limit state.old
        memory.old report.old }
{
    debugger::ts201_run_ordered(image, orders, limit, state, memory, report)
}
