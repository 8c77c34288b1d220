// The record of a case: where its parts lie, or why it has none.
ghost use Rattle.std.specs.Prelude.{◌≡◌, ◌<◌, length};
ghost use Rattle.replay.specs.Record as spec;

use image::directory::index;
use layout::table::STATE_WORDS;

// The words of a record whose image, memory and orders are empty: three states, and 21 words beside them.
pub(crate) const FIXED_WORDS: usize = 3 * STATE_WORDS + 21;

// Where the orders' length stands in such a record; how far the limit is behind the state, without the orders' bytes, and the
// numbers of the ordered run behind the limit, without the memory words.
const ORDERS_AT: usize = STATE_WORDS + 2;

const LIMIT_AFTER: usize = STATE_WORDS + 1;

const ORDERED_AFTER: usize = STATE_WORDS + 13;

// The lengths of image, memory (in words) and orders (in bytes); where the state before lies, the limit, and the numbers
// of the check call and of the two runs.
#[derive(Clone, Copy)]
pub(crate) struct Parts {
    pub image: usize,
    pub memory: usize,
    pub orders: usize,
    pub state: usize,
    pub limit: usize,
    pub check: usize,
    pub plain: usize,
    pub ordered: usize,
}

// A record that is too short for any case, or longer than replay holds; a length that passes its end; words in all, and those
// of its parts; a count that is not 3, 5 and 5.
#[derive(Clone, Copy)]
pub(crate) enum Fault {
    Short(usize),
    Long(usize),
    Image(u32),
    Memory(u32),
    Orders(u32),
    Length(usize, usize),
    Check(u32),
    Plain(u32),
    Ordered(u32),
}

fn parts_of(image: usize, memory: usize, orders: usize) -> Parts
    requires { (image < 4294967296) × (memory < 4294967296) × (orders < 4294967296) }
    ensures { result ≡ spec.parts_of image memory orders }
{
    let state = 2 + image + memory;
    let limit = state + LIMIT_AFTER + (orders + 3) / 4;
    Parts {
        image: image,
        memory: memory,
        orders: orders,
        state: state,
        limit: limit,
        check: limit + 3,
        plain: limit + 7,
        ordered: limit + ORDERED_AFTER + memory,
    }
}

// The counts before the numbers of the check call and of the two runs.
fn counted(words: &[u32], p: Parts) -> Result<Parts, Fault>
    requires { spec.Fill p (length words.now) }
    ensures { result ≡ spec.counted words.now p }
{
    let check = words[p.check - 1];
    if check != 3 {
        return Err(Fault::Check(check));
    }
    let plain = words[p.plain - 1];
    if plain != 5 {
        return Err(Fault::Plain(plain));
    }
    let ordered = words[p.ordered - 1];
    if ordered != 5 {
        return Err(Fault::Ordered(ordered));
    }
    Ok(p)
}

// A length is believed only where all that the record must hold beside it still fits.
pub(crate) fn layout_of(words: &[u32]) -> Result<Parts, Fault>
    ensures { result ≡ spec.layout_of words.now }
{
    let n = words.len();
    if n < FIXED_WORDS {
        return Err(Fault::Short(n));
    }
    let image = index(words[0]);
    if n < FIXED_WORDS + image {
        return Err(Fault::Image(words[0]));
    }
    let memory = index(words[1 + image]);
    if n < FIXED_WORDS + image + 3 * memory {
        return Err(Fault::Memory(words[1 + image]));
    }
    let orders = index(words[ORDERS_AT + image + memory]);
    let all = FIXED_WORDS + image + 3 * memory + (orders + 3) / 4;
    if n < all {
        return Err(Fault::Orders(words[ORDERS_AT + image + memory]));
    }
    if all < n {
        return Err(Fault::Length(n, all));
    }
    counted(words, parts_of(image, memory, orders))
}
