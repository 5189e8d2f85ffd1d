// Number 1: BLAKE2s over a tag byte and what is compressed.
ghost use Rattle.std.specs.Prelude.{◌≡◌, ◌∷◌, ◌++◌};
ghost use Rattle.compression.specs.Tagged.{tagged_blake2s};
ghost use Rattle.blake2s.proofs.Octets.{digest_octets};
ghost use Rattle.utreexo.specs.declared.types.Input.TheVariants.{Leaf, Pair};
ghost use Rattle.utreexo.proofs.Fitting.{value_in_fits};

use crate::Compression;
use utreexo::record::Record;
use utreexo::types::{Coin, Value};

pub struct Blake2s;

// A leaf's message: the byte 0 and the coin.
fn leaf_message(coin: &[u8; 32]) -> [u8; 33]
    ensures { result ≡ 0 ∷ coin.now }
{
    let mut message = [0; 33];
    message[1..33].copy_from_slice(coin);
    message
}

// A pair's message: the byte 1 and the two values. The right one is written first: what is proved of a write then needs no lemma.
fn pair_message(left: &[u8; 32], right: &[u8; 32]) -> [u8; 65]
    ensures { result ≡ 1 ∷ (left.now ++ right.now) }
{
    let mut message = [1; 65];
    message[33..65].copy_from_slice(right);
    message[1..33].copy_from_slice(left);
    message
}

impl Compression for Blake2s {
    const NUMBER: u8 = 1;

    ghost NUMBER = { 1 };

    ghost image = { tagged_blake2s };

    ghost fits = { elim [
      | Leaf c ↦ λ f. value_in_fits _ (digest_octets _)
      | Pair l r ↦ λ f. value_in_fits _ (digest_octets _)
    ] };

    fn leaf(coin: Coin) -> Value {
        Value::from_bytes(&blake2s::digest_of(&leaf_message(&coin.to_bytes())))
    }

    fn pair(left: Value, right: Value) -> Value {
        Value::from_bytes(&blake2s::digest_of(&pair_message(&left.to_bytes(), &right.to_bytes())))
    }
}
