//! Hashes of integers as Python has them, and of texts, for every table that keeps keys: equal keys have
//! equal hashes, whoever computes them.

ghost use Rattle.std.specs.Prelude.{◌≡◌};
ghost use Rattle.ft_hash.specs.Hashes.{int_hash, text_hash};

/// `hash(integer)` of Python on machines of 64 bits, in two's complement (Python manual, Hashing of
/// numeric types): the remainder by 2^61 - 1 with the integer's sign, and -2 in place of -1.
#[tactic(auto, unfolding(crate::specs::Hashes::int_hash, crate::specs::Hashes::remainder_hash))]
pub fn hash_int(integer: i64) -> u64
    ensures { result ≡ int_hash integer }
{
    const MODULUS: i64 = (1 << 61) - 1;
    let remainder = integer % MODULUS;
    let hash = if remainder == -1 { -2 } else { remainder };
    hash.cast_unsigned()
}

/// FNV-1a of 64 bits over the text's UTF-8 bytes.
#[tactic(auto, unfolding(crate::specs::Hashes::text_hash))]
pub fn hash_text(text: &str) -> u64
    ensures { result ≡ text_hash text.now }
{
    let mut hash: u64 = 14695981039346656037;
    for byte in text.as_bytes() {
        hash = (hash ^ u64::from(*byte)).wrapping_mul(1099511628211);
    }
    hash
}
