// The promise, proved over the definitions. The functions here do nothing: each one's contract is a theorem, and the crate would not
// check without its proof, which is in proofs/.
#![tactic(auto)]

ghost use Rattle.std.specs.Prelude.{ℕ, ◌⊎◌, List};
ghost use Rattle.utreexo.specs.Bytes.{Octets};
ghost use Rattle.utreexo.specs.Values.{Image, CoinFits, ImageFits};
ghost use Rattle.utreexo.specs.Checks.{read_causes};
ghost use Rattle.utreexo.specs.Wallet.{Wallet, Call, new_wallet, wallet_step};
ghost use Rattle.utreexo.specs.Register.{new_register, register_take_causes};
ghost use Rattle.utreexo.specs.Bridge.{bridge_take_back, GivenOctets};
ghost use Rattle.utreexo.specs.Promise.{Agreed, ServedWhere, Faithful};
ghost use Rattle.promise.specs.Agreement.{Keeps};
ghost use Rattle.promise.specs.Theorems.{Parting, OneToOne, AlwaysAgreed, BlocksStep, CardsWatched, BridgeTakes, TakenBack, BridgeWrites, ReadBack, WriteBack};

// Wallet and collection cannot part without leaving evidence, and until they do, a bridge serves the wallet.
pub fn wallet_is_faithful()
    ensures { (image : Image) (places : ℕ) → Faithful image places }
{}

// Any run agrees throughout, or splits at the first call whose answers differ, and that call is caught.
pub fn runs_judged()
    ensures { (image : Image) (places : ℕ) (calls : List Call) → Agreed image places calls ⊎ Parting image (new_wallet places) (new_register places) calls }
{}

// Where no two inputs have one image, every run agrees.
pub fn always_agreed()
    ensures { AlwaysAgreed OneToOne }
{}

// A call of a wallet keeps its agreement with every register, or is caught.
pub fn steps_keep_agreement()
    ensures { (image : Image) (call : Call) (w : Wallet) → Keeps image call w (wallet_step image call w).answer (wallet_step image call w).state }
{}

// The third part of the promise is false of images that pass their words.
pub fn images_must_fit()
    ensures { ((image : Image) (places : ℕ) → ServedWhere image places (Unit {0}) GivenOctets) → ⊥ }
{}

// It is false, too, where what a bridge is given need not be bytes.
pub fn blocks_must_be_bytes()
    ensures { ((image : Image) (places : ℕ) → ServedWhere image places (ImageFits image) (λ _. Unit {0})) → ⊥ }
{}

// A block that the register takes has a proof that fits, and its step on a wallet's roots and paths is that on the slots.
pub fn blocks_step()
    ensures { BlocksStep register_take_causes }
{}

// A bridge's card is taken as a block, and watched while fewer than eight coins are on the shelf.
pub fn cards_watched()
    ensures { CardsWatched 8 }
{}

// A bridge takes what it wrote, where it has the capacity.
pub fn bridge_takes()
    ensures { BridgeTakes ImageFits }
{}

// A bridge that takes a block and takes it back has the slots that it had.
pub fn taken_back()
    ensures { TakenBack bridge_take_back }
{}

// What a bridge writes reads as the block that was asked for.
pub fn bridge_writes()
    ensures { BridgeWrites CoinFits }
{}

// The entries of a composed block are what was composed.
pub fn read_back()
    ensures { ReadBack CoinFits }
{}

// Composing the entries of a readable block gives its bytes.
pub fn write_back()
    ensures { WriteBack Octets }
{}
