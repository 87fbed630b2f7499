// XXH3-64 in one shot, seed 0, after the public xxHash specification, whose names its functions have. The public
// call is `xxh3_64`. The other `pub` functions serve the crates above: each takes the secret `k` and assumes what it says.
#![tactic(auto)]

ghost use Rattle.std.specs.Prelude.{◌≡◌, ◌+◌, ◌-◌, ◌*◌, ◌≤◌, ◌<◌, [], ◌∷◌, length};
ghost use Rattle.std.specs.Int.Bits.{bit_xor};
ghost use Rattle.number.specs.Number.{times, le};
ghost use Rattle.xxh3.specs.Xxh3.{prime64_1, avalanche, avalanche_xxh64, xxh3_64_empty, combined1to3, xxh3_64_1to3, combined4to8, mixed4to8, xxh3_64_4to8, value9to16, xxh3_64_9to16, mix_step, xxh3_64_17to128, chunks, xxh3_64_129to240, halves, lane, accumulate, scrambled, round_scramble, initial_acc, merged, final_merge, xxh3_64_large, hash, default_secret};
ghost use Rattle.xxh3.specs.Rounds.{round_if};
ghost use Rattle.xxh3.specs.Stripes.{block_end, stripes};
ghost use Rattle.refusal.specs.Refusal.{answer_number};
ghost use Rattle.xxh3.specs.Hashed.{too_long, hashed};

use number::{LIMIT, add64, fold64, mul64, read, rotl64, swap64, xorshift64};
use refusal::{Refusal, when};

// What a hash is made with: 192 bytes.
pub type Secret = [u8; 192];

// The specification's default secret. It is named once in a run, by the outermost function, and handed down.
pub const SECRET: Secret = [
    0xb8, 0xfe, 0x6c, 0x39, 0x23, 0xa4, 0x4b, 0xbe, 0x7c, 0x01, 0x81, 0x2c, 0xf7, 0x21, 0xad, 0x1c,
    0xde, 0xd4, 0x6d, 0xe9, 0x83, 0x90, 0x97, 0xdb, 0x72, 0x40, 0xa4, 0xa4, 0xb7, 0xb3, 0x67, 0x1f,
    0xcb, 0x79, 0xe6, 0x4e, 0xcc, 0xc0, 0xe5, 0x78, 0x82, 0x5a, 0xd0, 0x7d, 0xcc, 0xff, 0x72, 0x21,
    0xb8, 0x08, 0x46, 0x74, 0xf7, 0x43, 0x24, 0x8e, 0xe0, 0x35, 0x90, 0xe6, 0x81, 0x3a, 0x26, 0x4c,
    0x3c, 0x28, 0x52, 0xbb, 0x91, 0xc3, 0x00, 0xcb, 0x88, 0xd0, 0x65, 0x8b, 0x1b, 0x53, 0x2e, 0xa3,
    0x71, 0x64, 0x48, 0x97, 0xa2, 0x0d, 0xf9, 0x4e, 0x38, 0x19, 0xef, 0x46, 0xa9, 0xde, 0xac, 0xd8,
    0xa8, 0xfa, 0x76, 0x3f, 0xe3, 0x9c, 0x34, 0x3f, 0xf9, 0xdc, 0xbb, 0xc7, 0xc7, 0x0b, 0x4f, 0x1d,
    0x8a, 0x51, 0xe0, 0x4b, 0xcd, 0xb4, 0x59, 0x31, 0xc8, 0x9f, 0x7e, 0xc9, 0xd9, 0x78, 0x73, 0x64,
    0xea, 0xc5, 0xac, 0x83, 0x34, 0xd3, 0xeb, 0xc3, 0xc5, 0x81, 0xa0, 0xff, 0xfa, 0x13, 0x63, 0xeb,
    0x17, 0x0d, 0xdd, 0x51, 0xb7, 0xf0, 0xda, 0x49, 0xd3, 0x16, 0x55, 0x26, 0x29, 0xd4, 0x68, 0x9e,
    0x2b, 0x16, 0xbe, 0x58, 0x7d, 0x47, 0xa1, 0xfc, 0x8f, 0xf8, 0xb8, 0xd1, 0x7a, 0xd0, 0x31, 0xce,
    0x45, 0xcb, 0x3a, 0x8f, 0x95, 0x16, 0x04, 0x28, 0xaf, 0xd7, 0xfb, 0xca, 0xbb, 0x4b, 0x40, 0x7e,
];

// A secret that is lent as a slice. It assumes 192 bytes.
#[inline(always)]
fn secret_in(k: &[u8]) -> &Secret
    requires { length k.now ≡ 192 }
    ensures { result.now ≡ k.now }
{
    k.as_array().unwrap()
}

// ---- final mixing

#[tactic(auto, unfolding(crate::specs::Xxh3::avalanche))]
fn avalanche(x: u64) -> u64
    ensures { result ≡ avalanche x }
{
    xorshift64(mul64(xorshift64(x, 37), 0x165667919E3779F9), 32)
}

#[tactic(auto, unfolding(crate::specs::Xxh3::avalanche_xxh64))]
fn avalanche_xxh64(x: u64) -> u64
    ensures { result ≡ avalanche_xxh64 x }
{
    let a = mul64(xorshift64(x, 33), 0xC2B2AE3D27D4EB4F);
    let b = mul64(xorshift64(a, 29), 0x165667B19E3779F9);
    xorshift64(b, 32)
}

// ---- small inputs

#[tactic(auto, unfolding(crate::specs::Xxh3::xxh3_64_empty))]
fn xxh3_64_empty(k: &Secret) -> u64
    ensures { result ≡ xxh3_64_empty k.now }
{
    avalanche_xxh64(read::<8>(k, 56) ^ read::<8>(k, 64))
}

// 1 to 3 bytes, with a word of the secret.
#[tactic(auto, unfolding(crate::specs::Xxh3::combined1to3))]
fn mix_1to3(word: u64, s: &[u8]) -> u64
    requires { (1 ≤ length s.now) × (length s.now ≤ 3) }
    ensures { result ≡ avalanche_xxh64 (bit_xor word (combined1to3 s.now)) }
{
    let n = s.len();
    let combined = s[n - 1] as u64
        + (n as u64) * 0x100
        + s[0] as u64 * 0x1_0000
        + s[n / 2] as u64 * 0x100_0000;
    avalanche_xxh64(word ^ combined)
}

#[tactic(auto, unfolding(crate::specs::Xxh3::xxh3_64_1to3))]
fn xxh3_64_1to3(k: &Secret, s: &[u8]) -> u64
    requires { (1 ≤ length s.now) × (length s.now ≤ 3) }
    ensures { result ≡ xxh3_64_1to3 k.now s.now }
{
    mix_1to3(read::<4>(k, 0) ^ read::<4>(k, 4), s)
}

#[tactic(auto, unfolding(crate::specs::Xxh3::mixed4to8, crate::specs::Xxh3::rotated, crate::specs::Xxh3::lengthened))]
fn mixed_4to8(value: u64, n: u64) -> u64
    requires { n ≤ 8 }
    ensures { result ≡ mixed4to8 n value }
{
    let a = mul64(
        value ^ rotl64(value, 49) ^ rotl64(value, 24),
        0x9FB21C651E98DF25,
    );
    let b = mul64(a ^ ((a >> 35) + n), 0x9FB21C651E98DF25);
    xorshift64(b, 28)
}

// 4 to 8 bytes, with a word of the secret.
#[tactic(auto, unfolding(crate::specs::Xxh3::combined4to8))]
fn mix_4to8(word: u64, s: &[u8]) -> u64
    requires { (4 ≤ length s.now) × (length s.now ≤ 8) }
    ensures { result ≡ mixed4to8 (length s.now) (bit_xor word (combined4to8 s.now)) }
{
    let n = s.len();
    let combined = read::<4>(s, n - 4) + read::<4>(s, 0) * 0x1_0000_0000;
    mixed_4to8(word ^ combined, n as u64)
}

#[tactic(auto, unfolding(crate::specs::Xxh3::xxh3_64_4to8))]
fn xxh3_64_4to8(k: &Secret, s: &[u8]) -> u64
    requires { (4 ≤ length s.now) × (length s.now ≤ 8) }
    ensures { result ≡ xxh3_64_4to8 k.now s.now }
{
    mix_4to8(read::<8>(k, 8) ^ read::<8>(k, 16), s)
}

// 9 to 16 bytes, with two words of the secret.
#[tactic(auto, unfolding(crate::specs::Xxh3::value9to16))]
fn mix_9to16(x: u64, y: u64, s: &[u8]) -> u64
    requires { (9 ≤ length s.now) × (length s.now ≤ 16) }
    ensures { result ≡ avalanche (value9to16 (length s.now) (bit_xor x (le 8 s.now 0)) (bit_xor y (le 8 s.now (length s.now - 8)))) }
{
    let n = s.len();
    let low = x ^ read::<8>(s, 0);
    let high = y ^ read::<8>(s, n - 8);
    let value = add64(add64(n as u64, swap64(low)), high);
    avalanche(add64(value, fold64(low, high)))
}

#[tactic(auto, unfolding(crate::specs::Xxh3::xxh3_64_9to16))]
fn xxh3_64_9to16(k: &Secret, s: &[u8]) -> u64
    requires { (9 ≤ length s.now) × (length s.now ≤ 16) }
    ensures { result ≡ xxh3_64_9to16 k.now s.now }
{
    let x = read::<8>(k, 24) ^ read::<8>(k, 32);
    let y = read::<8>(k, 40) ^ read::<8>(k, 48);
    mix_9to16(x, y, s)
}

// ---- medium inputs

// 16 bytes of s at i with 16 bytes of the secret at j.
#[tactic(auto, unfolding(crate::specs::Xxh3::mix_step))]
fn mix_step(k: &Secret, s: &[u8], i: usize, j: usize) -> u64
    requires { (i + 16 ≤ length s.now) × (j + 16 ≤ 192) }
    ensures { result ≡ mix_step k.now s.now i j }
{
    fold64(
        read::<8>(s, i) ^ read::<8>(k, j),
        read::<8>(s, i + 8) ^ read::<8>(k, j + 8),
    )
}

#[tactic(auto, using(crate::proofs::Loops::rounds_turn, crate::proofs::Loops::rounds_done), unfolding(crate::specs::Xxh3::xxh3_64_17to128))]
fn xxh3_64_17to128(k: &Secret, s: &[u8]) -> u64
    requires { (17 ≤ length s.now) × (length s.now ≤ 128) }
    ensures { result ≡ xxh3_64_17to128 k.now s.now }
{
    let n = s.len();
    let mut acc = mul64(n as u64, 0x9E3779B185EBCA87);
    for i in (0..(n - 1) / 32 + 1).rev() {
        acc = add64(acc, mix_step(k, s, i * 16, i * 32));
        acc = add64(acc, mix_step(k, s, n - i * 16 - 16, i * 32 + 16));
    }
    avalanche(acc)
}

// m chunks of 16 bytes from i on, with the secret from j on, added to a.
#[tactic(auto, using(crate::proofs::Loops::chunks_turn, crate::proofs::Loops::chunks_done))]
fn chunks(k: &Secret, s: &[u8], m: usize, i: usize, j: usize, a: u64) -> u64
    requires { (i + m * 16 ≤ length s.now) × (j + m * 16 ≤ 192) }
    ensures { result ≡ chunks k.now s.now m i j a }
{
    let mut acc = a;
    for c in 0..m {
        acc = add64(acc, mix_step(k, s, i + c * 16, j + c * 16));
    }
    acc
}

#[tactic(auto, unfolding(crate::specs::Xxh3::xxh3_64_129to240))]
fn xxh3_64_129to240(k: &Secret, s: &[u8]) -> u64
    requires { (129 ≤ length s.now) × (length s.now ≤ 240) }
    ensures { result ≡ xxh3_64_129to240 k.now s.now }
{
    let n = s.len();
    let first = chunks(k, s, 8, 0, 0, mul64(n as u64, 0x9E3779B185EBCA87));
    let second = chunks(k, s, n / 16 - 8, 128, 3, avalanche(first));
    avalanche(add64(second, mix_step(k, s, n - 16, 119)))
}

// ---- large inputs

#[tactic(auto, unfolding(crate::specs::Xxh3::initial_acc))]
pub fn initial_acc() -> [u64; 8]
    ensures { result ≡ initial_acc }
{
    [
        0xC2B2AE3D,
        0x9E3779B185EBCA87,
        0xC2B2AE3D27D4EB4F,
        0x165667B19E3779F9,
        0x85EBCA77C2B2AE63,
        0x85EBCA77,
        0x27D4EB2F165667C5,
        0x9E3779B1,
    ]
}

fn halves(value: u64) -> u64
    ensures { result ≡ halves value }
{
    (value % 0x1_0000_0000) * (value / 0x1_0000_0000)
}

// `read`, one call deeper: the compiler then makes one load of the eight bytes before it looks at their halves,
// and takes the lanes two at a time.
fn word(s: &[u8], i: usize) -> u64
    requires { i + 8 ≤ length s.now }
    ensures { result ≡ le 8 s.now i }
{
    read::<8>(s, i)
}

// The accumulator n, with the stripe at i and the secret at j; o is its neighbour's number.
#[tactic(auto, unfolding(crate::specs::Xxh3::lane))]
fn accumulate_lane(k: &[u8], s: &[u8], i: usize, j: usize, acc: u64, n: usize, o: usize) -> u64
    requires { (i + 64 ≤ length s.now) × (j + 64 ≤ length k.now) × (n < 8) × (o < 8) }
    ensures { result ≡ lane acc (le 8 s.now (i + 8 * o)) (le 8 s.now (i + 8 * n)) (le 8 k.now (j + 8 * n)) }
{
    let value = word(s, i + 8 * n) ^ word(k, j + 8 * n);
    add64(add64(acc, word(s, i + 8 * o)), halves(value))
}

// A helper of crate stream too: it assumes a stripe at i of s and 64 bytes at j of the secret, and no more of the secret than that.
#[tactic(auto, unfolding(crate::specs::Xxh3::accumulate))]
pub fn accumulate(k: &[u8], s: &[u8], i: usize, j: usize, a: [u64; 8]) -> [u64; 8]
    requires { (i + 64 ≤ length s.now) × (j + 64 ≤ length k.now) }
    ensures { result ≡ accumulate k.now s.now i j a }
{
    [
        accumulate_lane(k, s, i, j, a[0], 0, 1),
        accumulate_lane(k, s, i, j, a[1], 1, 0),
        accumulate_lane(k, s, i, j, a[2], 2, 3),
        accumulate_lane(k, s, i, j, a[3], 3, 2),
        accumulate_lane(k, s, i, j, a[4], 4, 5),
        accumulate_lane(k, s, i, j, a[5], 5, 4),
        accumulate_lane(k, s, i, j, a[6], 6, 7),
        accumulate_lane(k, s, i, j, a[7], 7, 6),
    ]
}

#[tactic(auto, unfolding(crate::specs::Xxh3::scrambled))]
fn scramble_lane(k: &Secret, acc: u64, j: usize) -> u64
    requires { j + 8 ≤ 192 }
    ensures { result ≡ scrambled acc (le 8 k.now j) }
{
    mul64(xorshift64(acc, 47) ^ word(k, j), 0x9E3779B1)
}

#[tactic(auto, unfolding(crate::specs::Xxh3::round_scramble))]
fn round_scramble(k: &Secret, a: [u64; 8]) -> [u64; 8]
    ensures { result ≡ round_scramble k.now a }
{
    [
        scramble_lane(k, a[0], 128),
        scramble_lane(k, a[1], 136),
        scramble_lane(k, a[2], 144),
        scramble_lane(k, a[3], 152),
        scramble_lane(k, a[4], 160),
        scramble_lane(k, a[5], 168),
        scramble_lane(k, a[6], 176),
        scramble_lane(k, a[7], 184),
    ]
}

#[tactic(auto, unfolding(crate::specs::Stripes::block_end))]
fn block_end(k: &Secret, t: usize, a: [u64; 8]) -> [u64; 8]
    ensures { result ≡ block_end k.now t a }
{
    if t % 16 == 15 {
        round_scramble(k, a)
    } else {
        a
    }
}

// m stripes of s from i on, the first of which is the stripe t of the input, into lent accumulators. A helper of
// crate stream too: it assumes that they are there, and that the input's stripes can be counted.
#[tactic(auto, using(crate::proofs::Loops::stripes_turn, crate::proofs::Loops::stripes_done))]
pub fn accumulate_into(k: &Secret, s: &[u8], m: usize, i: usize, t: usize, a: &mut [u64; 8])
    requires { (i + m * 64 ≤ length s.now) × (t + m < 0x800_0000_0000_0000) }
    ensures { a.new ≡ stripes k.now s.now m i t a.old }
{
    let mut acc = *a;
    for n in 0..m {
        let count = t + n;
        acc = block_end(k, count, accumulate(k, s, i + n * 64, count % 16 * 8, acc));
    }
    *a = acc;
}

#[tactic(auto, unfolding(crate::specs::Xxh3::merged))]
fn merge_pair(k: &Secret, j: usize, x: u64, y: u64) -> u64
    requires { j + 16 ≤ 192 }
    ensures { result ≡ merged k.now j x y }
{
    fold64(x ^ read::<8>(k, j), y ^ read::<8>(k, j + 8))
}

// The hash of a large input of n bytes, from its accumulators. A helper of crate stream too: it assumes a secret of 192 bytes.
#[tactic(auto, unfolding(crate::specs::Xxh3::final_merge))]
pub fn final_merge(k: &[u8], n: u64, a: [u64; 8]) -> u64
    requires { length k.now ≡ 192 }
    ensures { result ≡ final_merge k.now (times n prime64_1) 11 a }
{
    let secret = secret_in(k);
    let t = add64(
        mul64(n, 0x9E3779B185EBCA87),
        merge_pair(secret, 11, a[0], a[1]),
    );
    let u = add64(t, merge_pair(secret, 27, a[2], a[3]));
    let v = add64(u, merge_pair(secret, 43, a[4], a[5]));
    avalanche(add64(v, merge_pair(secret, 59, a[6], a[7])))
}

#[tactic(auto, using(crate::specs::Stripes::large_by_stripes))]
fn xxh3_64_large(k: &Secret, s: &[u8]) -> u64
    requires { 241 ≤ length s.now }
    ensures { result ≡ xxh3_64_large k.now s.now }
{
    let n = s.len();
    let mut a = initial_acc();
    accumulate_into(k, s, (n - 1) / 64, 0, 0, &mut a);
    final_merge(k, n as u64, accumulate(k, s, n - 64, 121, a))
}

// ---- XXH3-64

// Apart from `hash_of`, which then fits its callers: the slices of a short input are not laid in memory again.
#[tactic(auto, using(crate::specs::Classes::hash_empty, crate::specs::Classes::hash_1to3, crate::specs::Classes::hash_4to8, crate::specs::Classes::hash_9to16))]
fn xxh3_64_small(k: &Secret, s: &[u8]) -> u64
    requires { length s.now ≤ 16 }
    ensures { result ≡ hash k.now s.now }
{
    let n = s.len();
    if n == 0 {
        return xxh3_64_empty(k);
    }
    if n <= 3 {
        return xxh3_64_1to3(k, s);
    }
    if n <= 8 {
        return xxh3_64_4to8(k, s);
    }
    xxh3_64_9to16(k, s)
}

// A helper of the layers above, which know their length to be within the limit, no public call: it refuses nothing, and assumes a secret of 192 bytes.
#[tactic(auto, using(crate::specs::Classes::hash_17to128, crate::specs::Classes::hash_129to240, crate::specs::Classes::hash_large))]
pub fn hash_of(k: &[u8], s: &[u8]) -> u64
    requires { length k.now ≡ 192 }
    ensures { result ≡ hash k.now s.now }
{
    let secret = secret_in(k);
    let n = s.len();
    if n <= 16 {
        return xxh3_64_small(secret, s);
    }
    if n <= 128 {
        return xxh3_64_17to128(secret, s);
    }
    if n <= 240 {
        return xxh3_64_129to240(secret, s);
    }
    xxh3_64_large(secret, s)
}

// ---- with the default secret

// A function that names a constant array lays it on the stack anew in each call. So inputs of at most 128 bytes have the
// secret's words as numbers, and the others a function apart that names it.

// `mix_step`, where x and y are the secret's words at j.
#[tactic(auto, unfolding(crate::specs::Xxh3::mix_step))]
fn mix_default(s: &[u8], i: usize, j: usize, x: u64, y: u64) -> u64
    requires { (i + 16 ≤ length s.now) × (x ≡ le 8 default_secret j) × (y ≡ le 8 default_secret (j + 8)) }
    ensures { result ≡ mix_step default_secret s.now i j }
{
    fold64(read::<8>(s, i) ^ x, read::<8>(s, i + 8) ^ y)
}

// The round i of an input that is long enough to have it, with the secret's words from i * 32 on.
#[tactic(auto, unfolding(crate::specs::Rounds::round_if))]
fn round_default(s: &[u8], i: usize, words: [u64; 4], acc: u64) -> u64
    requires { (17 ≤ length s.now) × (i < 4) × (words ≡ le 8 default_secret (i * 32) ∷ le 8 default_secret (i * 32 + 8) ∷ le 8 default_secret (i * 32 + 16) ∷ le 8 default_secret (i * 32 + 16 + 8) ∷ []) }
    ensures { result ≡ round_if default_secret s.now i acc }
{
    let n = s.len();
    if n <= i * 32 {
        return acc;
    }
    let first = add64(acc, mix_default(s, i * 16, i * 32, words[0], words[1]));
    add64(
        first,
        mix_default(s, n - i * 16 - 16, i * 32 + 16, words[2], words[3]),
    )
}

fn default_17to128(s: &[u8]) -> u64
    requires { (17 ≤ length s.now) × (length s.now ≤ 128) }
    ensures { result ≡ xxh3_64_17to128 default_secret s.now }
{
    let start = mul64(s.len() as u64, 0x9E3779B185EBCA87);
    let words = [
        0x3f349ce33f76faa8,
        0x1d4f0bc7c7bbdcf9,
        0x3159b4cd4be0518a,
        0x647378d9c97e9fc8,
    ];
    let third = round_default(s, 3, words, start);
    let words = [
        0xcb00c391bb52283c,
        0xa32e531b8b65d088,
        0x4ef90da297486471,
        0xd8acdea946ef1938,
    ];
    let second = round_default(s, 2, words, third);
    let words = [
        0x78e5c0cc4ee679cb,
        0x2172ffcc7dd05a82,
        0x8e2443f7744608b8,
        0x4c263a81e69035e0,
    ];
    let first = round_default(s, 1, words, second);
    let words = [
        0xbe4ba423396cfeb8,
        0x1cad21f72c81017c,
        0xdb979083e96dd4de,
        0x1f67b3b7a4a44072,
    ];
    avalanche(round_default(s, 0, words, first))
}

fn default_small(s: &[u8]) -> u64
    requires { length s.now ≤ 16 }
    ensures { result ≡ hash default_secret s.now }
{
    let n = s.len();
    if n == 0 {
        return avalanche_xxh64(0x8726f9105dc21ddc);
    }
    if n <= 3 {
        return mix_1to3(0x87275a9b, s);
    }
    if n <= 8 {
        return mix_4to8(0xc73ab174c5ecd5a2, s);
    }
    mix_9to16(0x6782737bea4239b9, 0xaf56bc3b0996523a, s)
}

#[tactic(auto, unfolding(crate::specs::Xxh3::default_secret))]
fn default_long(s: &[u8]) -> u64
    ensures { result ≡ hash default_secret s.now }
{
    hash_of(&SECRET, s)
}

// `hash_of` with the default secret.
#[tactic(auto, using(crate::specs::Classes::hash_17to128))]
pub fn hash_default(s: &[u8]) -> u64
    ensures { result ≡ hash default_secret s.now }
{
    let n = s.len();
    if 128 < n {
        return default_long(s);
    }
    if 16 < n {
        return default_17to128(s);
    }
    default_small(s)
}

// XXH3-64 of s, or 21 exactly if s exceeds 4,294,967,295 bytes.
#[tactic(auto, unfolding(crate::specs::Hashed::too_long, crate::specs::Hashed::hashed))]
pub fn xxh3_64(s: &[u8]) -> Result<u64, Refusal>
    ensures { (result ≡ hashed s.now) × (answer_number result ≡ too_long (length s.now)) }
{
    when(LIMIT < s.len() as u64, Refusal::TooLong)?;
    Ok(hash_default(s))
}
