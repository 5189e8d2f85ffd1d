// Blocks of 32 targets in a forest of 2147483648 slots, with eight coins on the shelf, each in a slot that differs from a target's in one
// bit. The compression counts: each value carries how many images were worked out for it. How many a block asks for was worked out by hand.
ghost use Rattle.std.specs.Prelude.{◌≡◌, ◌+◌, ◌*◌, ◌%◌, ◌^◌, true};
ghost use Rattle.std.proofs.Common.{arith};
ghost use Rattle.utreexo.specs.declared.types.Input.TheVariants.{Leaf, Pair};
ghost use Rattle.shelf.specs.Held.{held_of, in_its_tree};

use crate::Wallet;
use block::compose::compose;
use climb::after::AfterValues;
use climb::climb::climb;
use climb::needed::Needed;
use compression::Compression;
use history::Ring;
use place::{Node, is_beneath, runs, sibling_place};
use proof::readable::Block;
use refusal::Refusal;
use shelf::held::Held;
use shelf::state::State;
use shelf::table::Shelf;
use std::array;
use std::marker::PhantomData;
use std::process::Abort;
use std::test::Fail;
use targets::placed::Targets;
use utreexo::types::*;

// One tree stands in the forest, that of row 31.
const SLOTS: u32 = 1 << 31;

// The word w0 of an image is how many images it took, itself counted; a hash of a block has zero there. The other words tell values apart.
// Nothing is inlined, so that a profiler can count the calls.
struct Counted;

fn mix(left: u64, right: u64) -> u64
    ensures { result ≡ (left * 3 % 2 ^ 64 + right * 5 % 2 ^ 64) % 2 ^ 64 }
{
    left.wrapping_mul(3).wrapping_add(right.wrapping_mul(5))
}

impl Compression for Counted {
    const NUMBER: u8 = 0;

    ghost NUMBER = { 0 };

    ghost image = { elim [
      | Leaf c ↦ record { w0 = 1; w1 = c.w0; w2 = c.w1; w3 = c.w2 }
      | Pair l r ↦ record { w0 = ((l.w0 + r.w0) % 2 ^ 64 + 1) % 2 ^ 64; w1 = (l.w1 * 3 % 2 ^ 64 + r.w1 * 5 % 2 ^ 64) % 2 ^ 64; w2 = l.w1; w3 = r.w1 }
    ] };

    ghost fits = { elim [
      | Leaf c ↦ λ f. (omega arith, f.0, f.1, f.2)
      | Pair l r ↦ λ f. (omega arith, omega arith, f.0.1, f.1.1)
    ] };

    #[inline(never)]
    fn leaf(coin: Coin) -> Value {
        Value {
            w0: 1,
            w1: coin.w0,
            w2: coin.w1,
            w3: coin.w2,
        }
    }

    #[inline(never)]
    fn pair(left: Value, right: Value) -> Value {
        Value {
            w0: left.w0.wrapping_add(right.w0).wrapping_add(1),
            w1: mix(left.w1, right.w1),
            w2: left.w1,
            w3: right.w1,
        }
    }
}

// The hash of this number in a block.
fn hash(number: usize) -> Value {
    Value {
        w0: 0,
        w1: number as u64,
        w2: 2,
        w3: 3,
    }
}

fn coin(number: usize) -> Coin {
    Coin {
        w0: number as u64,
        w1: 5,
        w2: 6,
        w3: 7,
    }
}

// Writes a block that spends these slots and adds these coins.
fn write_block(slots: &[u32; 32], added: &[Coin], out: &mut [u8]) -> Result<usize, Refusal> {
    let positions: [Position; 32] = slots.map(|slot| Position {
        number: slot as u64,
    });
    let spent: [Coin; 32] = array::from_fn(coin);
    let targets = Targets::place(SLOTS, &positions, &spent)?;
    let hashes: [Value; 992] = array::from_fn(hash);
    let needed = Needed::count(&targets).min(992);
    compose(&positions, &spent, &hashes[..needed], added, out)
}

// What a block claims: the hash of number n of its needed place of number n, and of the covered places what `after` says.
#[derive(Drop)]
struct Claims {
    needed: Needed,
    after: AfterValues,
}

impl Claims {
    fn of(block: &Block) -> Result<Claims, Refusal> {
        let targets = block.place(SLOTS)?;
        let mut after = AfterValues::empty();
        climb::<Counted>(&targets, &[None; 32], block.hashes(), &mut after);
        Ok(Claims {
            needed: Needed::of(&targets),
            after,
        })
    }

    // What is claimed at a place; zero where nothing is.
    fn at(&self, node: Node) -> Value {
        let items = self.after.row(node.row);
        if let Some(item) = items.iter().find(|item| item.place == node.place) {
            return item.claim;
        }
        let number = self.needed.as_slice().iter().position(|d| *d == node);
        number.map_or(Value::default(), hash)
    }

    // A coin in a slot, with the path that is claimed.
    fn held(&self, slot: u32) -> Held
        ensures { in_its_tree 2147483648 (held_of result) ≡ true }
    {
        let place = slot % SLOTS;
        Held {
            coin: coin(40),
            row: 0,
            place,
            path: array::from_fn(|i| {
                let row = i as u8;
                let place = sibling_place(runs(place, row));
                self.at(Node { row, place })
            }),
            len: 31,
        }
    }

    // The wallet's state before the block, with the coins of these slots on the shelf.
    fn state(&self, [a, b, c, d, e, f, g, h]: [u32; 8]) -> State {
        let mut roots = [None; 32];
        roots[31] = Some(self.at(Node { row: 31, place: 0 }));
        State {
            count: SLOTS,
            roots,
            shelf: Shelf {
                coins: [
                    self.held(a),
                    self.held(b),
                    self.held(c),
                    self.held(d),
                    self.held(e),
                    self.held(f),
                    self.held(g),
                    self.held(h),
                ],
                len: 8,
            },
        }
    }

    // Each hash of a path is what is left at its place, and where nothing is left there is none.
    fn check_path(&self, rt: &impl Abort, slot: u32, held: &Held) {
        let mut path = held.path().iter();
        for row in 0..31 {
            let place = sibling_place(runs(slot, row));
            let claimed = self.at(Node { row, place });
            let left = self.after.at(row, place).unwrap_or(Some(claimed));
            if left.is_some() {
                assert_eq!(rt; path.next().copied(), left, "row {row}");
            }
        }
        assert!(rt; path.next().is_none());
    }

    // From the needed place that the coin lies beneath, the path leads to the root.
    fn check_root(&self, rt: &impl Abort, slot: u32, held: &Held, root: Option<Value>) {
        let leaf = Node {
            row: 0,
            place: slot,
        };
        let start = self
            .needed
            .as_slice()
            .iter()
            .find(|d| is_beneath(leaf, **d));
        let start = start.copied().unwrap_or(leaf);
        let mut place = runs(start.place, held.row);
        let mut value = self.at(start);
        for hash in held.path().get(start.row as usize..).unwrap_or(&[]) {
            value = if place % 2 == 0 {
                Counted::pair(value, *hash)
            } else {
                Counted::pair(*hash, value)
            };
            place /= 2;
        }
        assert_eq!(rt; Some(value), root);
    }
}

// A call of its own, so that a profiler can tell what happens in it.
#[inline(never)]
fn take(wallet: &mut Wallet<Counted>, block: &[u8]) -> Result<(), Refusal> {
    wallet.take(block)
}

// A wallet with these coins on the shelf takes the block, whose claims take so many images, and what is left at the root so many.
// Both are at most two images for each target and row of the tree.
fn check_take(
    rt: &impl Abort,
    slots: &[u32; 32],
    added: &[Coin],
    watched: [u32; 8],
    images: (u64, u64),
) -> Result<[Option<Value>; 32], Fail> {
    let mut out = [0; 31048];
    let len = write_block(slots, added, &mut out)?;
    let bytes = &out[..len.min(31048)];
    let block = Block::read(bytes)?;
    let claims = Claims::of(&block)?;
    let mut marks = [State::empty(); 1];
    let mut wallet = Wallet::<Counted> {
        state: claims.state(watched),
        ring: Ring::new(),
        marks: &mut marks,
        compression: PhantomData,
    };
    let before = wallet.roots()[31];
    take(&mut wallet, bytes)?;
    let roots = *wallet.roots();
    let counts = (before.map(|v| v.w0), roots[31].map(|v| v.w0));
    assert_eq!(rt; counts, (Some(images.0), Some(images.1)));
    assert!(rt; images.0.saturating_add(images.1) <= 2 * 32 * 31);
    assert_eq!(rt; wallet.shelf_len(), 8);
    for (held, slot) in wallet.state.shelf.as_slice().iter().zip(&watched) {
        claims.check_path(rt, *slot, held);
        claims.check_root(rt, *slot, held, roots[31]);
    }
    Ok(roots)
}

// Each target in a run of 2^26 slots of its own, which needs 26 hashes. Claims: 32 leaves, 32 × 26 places of the rows 1 to 26, and the 31
// above them. Left: a target's sibling goes up to row 1 as it is, so 32 × 25 places, and the 31.
// The 32 new coins are a tree of row 5: 32 leaves and 31 places.
#[test]
fn spread_targets(rt: HostRuntime) -> Result<(), Fail> {
    let slots = array::from_fn(|i| (i as u32).wrapping_mul(68343431));
    let bits: [u32; 8] = [
        1 << 0,
        1 << 3,
        1 << 6,
        1 << 9,
        1 << 12,
        1 << 15,
        1 << 18,
        1 << 25,
    ];
    let watched = array::from_fn(|i| slots[4 * i] ^ bits[i]);
    let added: [Coin; 32] = array::from_fn(coin);
    let roots = check_take(&rt, &slots, &added, watched, (895, 831))?;
    assert_eq!(rt; roots[5].map(|v| v.w0), Some(63));
    Ok(())
}

// The 32 targets are the slots of one place of row 5, which needs 26 hashes. Claims: 32 leaves, the 31 places up to row 5, and 26 above.
// Left: nothing up to row 5, a hash as it is in row 6, and 25 places above.
#[test]
fn adjacent_targets(rt: HostRuntime) -> Result<(), Fail> {
    let slots = array::from_fn(|i| 38177472 + i as u32 % 32);
    let watched = array::from_fn(|i| 38177472 ^ 32u32.unbounded_shl(i as u32));
    check_take(&rt, &slots, &[], watched, (89, 25))?;
    Ok(())
}

// Two adjacent targets in each run of 2^27 slots. Claims: 32 leaves, 16 × 27 places of the rows 1 to 27, and the 15 above them. Left:
// nothing in row 1, a hash as it is in row 2, so 16 × 25 places, and the 15.
#[test]
fn pairs_of_targets(rt: HostRuntime) -> Result<(), Fail> {
    let slots = array::from_fn(|i| (i as u32 / 2).wrapping_mul(134217728 + 5555556) + i as u32 % 2);
    let watched = array::from_fn(|i| slots[4 * i] ^ 4u32.unbounded_shl(i as u32));
    check_take(&rt, &slots, &[], watched, (479, 415))?;
    Ok(())
}
