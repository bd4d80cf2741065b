// Payload bytes, copied from one slice into another.
#![tactic(auto)]

ghost use Rattle.std.specs.Prelude.{◌≡◌, ◌+◌, ◌^◌, ◌≤◌, ◌<◌, min, length};
ghost use Rattle.rules.specs.Bytes.{part, over};

use wire::store::put64;
use wire::u64_at;

// Fewer bytes than a word has.
fn copy_few(input: &[u8], from: usize, n: usize, payload: &mut [u8], to: usize)
    requires { (from + n ≤ length input.now) × (to + n ≤ length payload.old) }
    ensures { payload.new ≡ over payload.old to (part input.now from n) }
{
    for k in 0..n {
        payload[to + k] = input[from + k];
    }
}

fn copy_word(input: &[u8], from: usize, payload: &mut [u8], to: usize)
    requires { (from + 8 ≤ length input.now) × (to + 8 ≤ length payload.old) }
    ensures { payload.new ≡ over payload.old to (part input.now from 8) }
{
    put64(payload, to, u64_at(input, from));
}

fn least(a: usize, b: usize) -> usize
    ensures { result ≡ min a b }
{
    if a < b { a } else { b }
}

// The word at position k, or the last one where that comes first; and the position after k's.
fn copy_near(
    input: &[u8],
    from: usize,
    payload: &mut [u8],
    to: usize,
    k: usize,
    last: usize,
) -> usize
    requires { (from + (last + 8) ≤ length input.now) × (to + (last + 8) ≤ length payload.old) × (k + 8 < 2 ^ 64) }
    ensures next { result ≡ k + 8 }
    ensures payload { payload.new ≡ over payload.old (to + min k last) (part input.now (from + min k last) 8) }
{
    let j = least(k, last);
    copy_word(input, from + j, payload, to + j);
    k + 8
}

// n bytes of the input from position `from` on, into the payload store from position `to` on: four words at a turn, of which none goes
// past the last, and that one at the end. So all names of 9 to 40 bytes take one turn, and the processor has no length to guess.
pub fn copy(input: &[u8], from: usize, n: usize, payload: &mut [u8], to: usize)
    requires { (from + n ≤ length input.now) × (to + n ≤ length payload.old) }
    ensures { payload.new ≡ over payload.old to (part input.now from n) }
{
    if n < 8 {
        copy_few(input, from, n, payload, to);
        return;
    }
    let last = n - 8;

    // Counted by hand: a turn moves whole words, and the last of them may lie over the one before.
    let mut k = 0;
    while k < last {
        k = copy_near(input, from, payload, to, k, last);
        k = copy_near(input, from, payload, to, k, last);
        k = copy_near(input, from, payload, to, k, last);
        k = copy_near(input, from, payload, to, k, last);
    }
    copy_word(input, from + last, payload, to + last);
}

// Two words, both read before either is written, so that a compiler may move them at once.
fn copy_pair(input: &[u8], from: usize, payload: &mut [u8], to: usize)
    requires { (from + 16 ≤ length input.now) × (to + 16 ≤ length payload.old) }
    ensures { payload.new ≡ over payload.old to (part input.now from 16) }
{
    let low = u64_at(input, from);
    let high = u64_at(input, from + 8);
    put64(payload, to, low);
    put64(payload, to + 8, high);
}

// As `copy`, for int128 and int256: the first pair of words and the last, which of 16 bytes are the same and of 32 the halves. So nothing
// depends on the length but where the last pair stands.
pub fn copy_wide(input: &[u8], from: usize, n: usize, payload: &mut [u8], to: usize)
    requires { (16 ≤ n) × (n ≤ 32) × (from + n ≤ length input.now) × (to + n ≤ length payload.old) }
    ensures { payload.new ≡ over payload.old to (part input.now from n) }
{
    let last = n - 16;
    copy_pair(input, from, payload, to);
    copy_pair(input, from + last, payload, to + last);
}
