// The compression of one block.
//
// LLVM compiles a function of this size in place only where it is called once. So `compress` has an instance for each call in
// `hash`: PART is 0 for a first block and 1 for the last, and N is the length of the messages that the copy of `hash` is for, or 0
// for any. For a message of fixed length the padding and the count of bytes are constants then. Tried: `inline(always)` in place of
// these parameters is dropped at this size, and 33 bytes take 10 % more instructions.
ghost use Rattle.std.specs.Prelude.{◌≡◌, ◌+◌, ◌%◌, ◌^◌, if◌then◌else◌, nat_lt, IsTrue};
ghost use Rattle.std.specs.List.{list_all};
ghost use Rattle.blake2s.specs.Blake2s.{mix, round, rounds, in_order, SIGMA, F};

use std::array;

// The order of the message's words in each round.
const ORDERS: [[usize; 16]; 10] = [
    [0, 1, 2, 3, 4, 5, 6, 7, 8, 9, 10, 11, 12, 13, 14, 15],
    [14, 10, 4, 8, 9, 15, 13, 6, 1, 12, 0, 2, 11, 7, 5, 3],
    [11, 8, 12, 0, 5, 2, 15, 13, 10, 14, 3, 6, 7, 1, 9, 4],
    [7, 9, 3, 1, 13, 12, 11, 14, 2, 6, 5, 10, 4, 0, 15, 8],
    [9, 0, 5, 7, 2, 4, 10, 15, 14, 1, 11, 12, 6, 8, 3, 13],
    [2, 12, 6, 10, 0, 11, 8, 3, 4, 13, 7, 5, 15, 14, 1, 9],
    [12, 5, 1, 15, 14, 13, 4, 10, 0, 7, 6, 3, 9, 2, 8, 11],
    [13, 11, 7, 14, 12, 1, 3, 9, 5, 0, 15, 4, 8, 6, 2, 10],
    [6, 15, 14, 9, 11, 3, 0, 8, 12, 2, 13, 7, 1, 4, 10, 5],
    [10, 2, 8, 4, 7, 6, 1, 5, 15, 11, 9, 14, 3, 12, 13, 0],
];

fn add_three(a: u32, b: u32, x: u32) -> u32
    ensures { result ≡ (a + b + x) % 2 ^ 32 }
{
    a.wrapping_add(b).wrapping_add(x)
}

// Four words of the vector, mixed with two words of the message.
fn mix_four(a: u32, b: u32, c: u32, d: u32, x: u32, y: u32) -> (u32, u32, u32, u32)
    ensures { result ≡ mix a b c d x y }
{
    let a = add_three(a, b, x);
    let d = (d ^ a).rotate_right(16);
    let c = c.wrapping_add(d);
    let b = (b ^ c).rotate_right(12);
    let a = add_three(a, b, y);
    let d = (d ^ a).rotate_right(8);
    let c = c.wrapping_add(d);
    let b = (b ^ c).rotate_right(7);
    (a, b, c, d)
}

// The words of the message m in the order s. Tried: with `s.map(|k| m[k])` 33 bytes take 4.6 times the instructions.
fn in_order(m: &[u32; 16], s: &[usize; 16]) -> [u32; 16]
    requires { IsTrue (list_all (λ k. nat_lt k 16) s.now) }
    ensures { result ≡ in_order s.now m.now }
{
    array::from_fn(|i| m[s[i]])
}

// One round: the columns, then the diagonals. The words of m stand in the order of the round. LLVM by itself leaves a function
// that is called ten times out of line: 55 % more instructions at 33 bytes.
#[inline(always)]
fn mix_round(v: [u32; 16], m: [u32; 16]) -> [u32; 16]
    ensures { result ≡ round m v }
{
    let (a0, b0, c0, d0) = mix_four(v[0], v[4], v[8], v[12], m[0], m[1]);
    let (a1, b1, c1, d1) = mix_four(v[1], v[5], v[9], v[13], m[2], m[3]);
    let (a2, b2, c2, d2) = mix_four(v[2], v[6], v[10], v[14], m[4], m[5]);
    let (a3, b3, c3, d3) = mix_four(v[3], v[7], v[11], v[15], m[6], m[7]);
    let (v0, v5, v10, v15) = mix_four(a0, b1, c2, d3, m[8], m[9]);
    let (v1, v6, v11, v12) = mix_four(a1, b2, c3, d0, m[10], m[11]);
    let (v2, v7, v8, v13) = mix_four(a2, b3, c0, d1, m[12], m[13]);
    let (v3, v4, v9, v14) = mix_four(a3, b0, c1, d2, m[14], m[15]);
    [
        v0, v1, v2, v3, v4, v5, v6, v7, v8, v9, v10, v11, v12, v13, v14, v15,
    ]
}

// The ten rounds. Tried: as a loop over ORDERS 33 bytes take 53 % more instructions, since the indices are no constants in it.
fn mix_rounds<const N: usize, const PART: usize>(v: [u32; 16], m: &[u32; 16]) -> [u32; 16]
    ensures { result ≡ rounds SIGMA m.now v }
{
    let v = mix_round(v, in_order(m, &ORDERS[0]));
    let v = mix_round(v, in_order(m, &ORDERS[1]));
    let v = mix_round(v, in_order(m, &ORDERS[2]));
    let v = mix_round(v, in_order(m, &ORDERS[3]));
    let v = mix_round(v, in_order(m, &ORDERS[4]));
    let v = mix_round(v, in_order(m, &ORDERS[5]));
    let v = mix_round(v, in_order(m, &ORDERS[6]));
    let v = mix_round(v, in_order(m, &ORDERS[7]));
    let v = mix_round(v, in_order(m, &ORDERS[8]));
    mix_round(v, in_order(m, &ORDERS[9]))
}

// All bits are set in the last block, and none before it.
fn final_flag(last: bool) -> u32
    ensures { result ≡ (if last then 0xffffffff else 0) }
{
    if last { 0xffffffff } else { 0 }
}

// The state after the block m; t counts the message's bytes up to its end.
pub(crate) fn compress<const N: usize, const PART: usize>(
    h: [u32; 8],
    m: &[u32; 16],
    t: u64,
    last: bool,
) -> [u32; 8]
    ensures { result ≡ F h m.now t last }
{
    let low = (t % 0x1_0000_0000) as u32;
    let high = (t / 0x1_0000_0000) as u32;
    let v = [
        h[0],
        h[1],
        h[2],
        h[3],
        h[4],
        h[5],
        h[6],
        h[7],
        0x6a09e667,
        0xbb67ae85,
        0x3c6ef372,
        0xa54ff53a,
        0x510e527f ^ low,
        0x9b05688c ^ high,
        0x1f83d9ab ^ final_flag(last),
        0x5be0cd19,
    ];
    let v = mix_rounds::<N, PART>(v, m);
    array::from_fn(|i| h[i] ^ v[i] ^ v[i + 8])
}
