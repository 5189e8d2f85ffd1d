// Number 2: Tally, byte by byte. It is for demonstrations and tests: anyone can find two inputs with one image.
ghost use Rattle.std.specs.Prelude.{◌≡◌, map};
ghost use Rattle.std.specs.Simd.Lanes.{zip2};
ghost use Rattle.utreexo.specs.Tally.{leaf_byte, pair_byte, tally};
ghost use Rattle.utreexo.specs.declared.types.Input.TheVariants.{Leaf, Pair};
ghost use Rattle.utreexo.specs.Bytes.{coin_bytes, value_bytes};
ghost use Rattle.utreexo.proofs.Fitting.{value_in_fits};
ghost use Rattle.compression.specs.TallyOctets.{leaf_octets, pair_octets};

use crate::Compression;
use std::array;
use utreexo::record::Record;
use utreexo::types::{Coin, Value};

pub struct Tally;

// 3 × left + 5 × right, mod 256.
fn mix_byte(left: u8, right: u8) -> u8
    ensures { result ≡ pair_byte left right }
{
    left.wrapping_mul(3).wrapping_add(right.wrapping_mul(5))
}

fn add_one_to_each(bytes: &mut [u8; 32])
    ensures { bytes.new ≡ map leaf_byte bytes.old }
{
    for b in bytes.iter_mut() {
        *b = b.wrapping_add(1);
    }
}

fn mix(left: &[u8; 32], right: &[u8; 32]) -> [u8; 32]
    ensures { result ≡ zip2 pair_byte left.now right.now }
{
    array::from_fn(|i| mix_byte(left[i], right[i]))
}

impl Compression for Tally {
    const NUMBER: u8 = 2;

    ghost NUMBER = { 2 };

    ghost image = { tally };

    ghost fits = { elim [
      | Leaf c ↦ λ f. value_in_fits (map leaf_byte (coin_bytes c)) (leaf_octets (coin_bytes c))
      | Pair l r ↦ λ f. value_in_fits (zip2 pair_byte (value_bytes l) (value_bytes r)) (pair_octets (value_bytes l) (value_bytes r))
    ] };

    fn leaf(coin: Coin) -> Value {
        let mut bytes = coin.to_bytes();
        add_one_to_each(&mut bytes);
        Value::from_bytes(&bytes)
    }

    fn pair(left: Value, right: Value) -> Value {
        Value::from_bytes(&mix(&left.to_bytes(), &right.to_bytes()))
    }
}
