// The hash of a key.
ghost use Rattle.std.specs.Prelude.{◌≡◌};
ghost use Rattle.key_table.specs.Hashes.{mix_of, spread_of, hash_of};

// One step of the hash.
#[inline(always)]
fn mix(h: u64, x: u32) -> u64
    ensures { result ≡ mix_of h x }
{
    (h ^ (x as u64)).wrapping_mul(0x9E37_79B9_7F4A_7C15)
}

// Buckets go by the lower bits, while in a product it is the upper ones that depend on most bits of the factors.
#[inline(always)]
fn spread(h: u32) -> u32
    ensures { result ≡ spread_of h }
{
    h ^ (h >> 15)
}

// The upper half of the state after all the numbers, since that half depends on each of them.
#[inline(always)]
pub(crate) fn hash_key(key: &[u32]) -> u32
    ensures { result ≡ hash_of key.now }
{
    let state = key.iter().fold(0x243F_6A88_85A3_08D3, |h, x| mix(h, *x));
    spread((state >> 32) as u32)
}
