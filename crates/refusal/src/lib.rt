// The refusals: every reason for which a call of this repository says no.
#![tactic(auto)]

ghost use Rattle.std.specs.Prelude.{◌≡◌, Decides, nat_eq};
ghost use Rattle.std.specs.Ordering.{on};
ghost use Rattle.refusal.specs.declared.Refusal.{Refusal};
ghost use Rattle.refusal.specs.Numbers.{number};

use std::fmt;

// A call does its work or gives one of these, and a refusal leaves everything as it was.
// The order is that of the numbers, which is also the order in which a call looks for them.
#[derive(Clone, Copy, PartialEq, Eq, Debug)]
pub enum Refusal {
    // the block has under 6 bytes, so its three counts cannot be read
    BlockTooShort = 1,
    // a count is over its limit, or a message for BLAKE2s has over 128 bytes
    OverLimit,
    // the block's length is not the one that its counts ask for
    WrongLength,
    // the targets are not strictly ascending
    TargetsNotAscending,
    // what is to be watched is no card: a card spends one coin and adds none
    NotACard,
    // a target is the number of no position in the forest
    TargetOutsideForest,
    // a target lies above another
    TargetAboveAnother,
    // there are more or fewer hashes than needed positions
    WrongHashCount,
    // a target lies in a tree whose root is blank
    BlankRoot,
    // the claimed image at some covered root is not the stored root
    ProofDoesNotFit,
    // the count of slots would pass 4,294,967,295
    TooManySlots,
    // the position to be watched is on the shelf
    AlreadyOnShelf,
    // the shelf has eight coins
    ShelfFull,
    // there is no earlier state to go back to
    NoMark,
    // the position is not on the shelf
    NotOnShelf,
    // the bridge or the keeper has no such coin, slot or run
    NotFound,
    // a hash given to the bridge is not the forest's own value there
    HashNotFresh,
    // the keeper is at its capacity, or a block would pass it
    OverCapacity,
    // the output is shorter than the result
    OutputTooShort,
}

impl Refusal {
    // The number under which a terminal, a script or another implementation knows the refusal. A method is plainer than a `From`: its
    // contract names the definition.
    pub fn number(&self) -> u8
        ensures { result ≡ number self.now }
    {
        *self as u8
    }

    // The cause in a sentence, for the person at the terminal.
    fn sentence(&self) -> &'static str {
        match self {
            Refusal::BlockTooShort => "the block has fewer than 6 bytes",
            Refusal::OverLimit =>
                "a count is over its limit, or the message is longer than 128 bytes",
            Refusal::WrongLength => "the block's length does not match its counts",
            Refusal::TargetsNotAscending => "the targets are not in strictly ascending order",
            Refusal::NotACard => "this is not a card: a card spends one coin and adds none",
            Refusal::TargetOutsideForest => "a target is not a position of the forest",
            Refusal::TargetAboveAnother => "a target lies above another target",
            Refusal::WrongHashCount => "the block has more or fewer hashes than the proof needs",
            Refusal::BlankRoot => "a target lies under a blank root",
            Refusal::ProofDoesNotFit => "the proof does not lead to the stored root",
            Refusal::TooManySlots => "the forest would have more than 4294967295 slots",
            Refusal::AlreadyOnShelf => "this position is on the shelf already",
            Refusal::ShelfFull => "the shelf holds eight coins already",
            Refusal::NoMark => "there is no earlier state to take back to",
            Refusal::NotOnShelf => "this position is not on the shelf",
            Refusal::NotFound => "there is no such coin, slot or run",
            Refusal::HashNotFresh => "a hash is not the forest's own value at its position",
            Refusal::OverCapacity => "the keeper has no room for this",
            Refusal::OutputTooShort => "the output is too short for the result",
        }
    }
}

impl fmt::Display for Refusal {
    fn fmt<W: fmt::Write>(&self, f: &mut fmt::Formatter<W>) -> fmt::Result {
        let number = self.number();
        let sentence = self.sentence();
        write!(f, "refusal {number}: {sentence}")
    }
}

// A refusal's number tells it apart, and the derived `==` compares numbers. The function does nothing: its contract is that law.
pub fn equal_by_number()
    ensures answer { (a b : Refusal) → ⟦<Refusal as PartialEq>⟧.eq a b ≡ on number nat_eq a b }
    ensures decides { (a b : Refusal) → Decides (⟦<Refusal as PartialEq>⟧.eq a b) (a ≡ b) }
    ensures one_number { (a b : Refusal) → number a ≡ number b → a ≡ b }
{}

#[cfg(test)]
mod tests {
    use super::*;
    use std::test::Fail;

    #[test]
    fn reads_as_a_sentence(rt: HostRuntime) -> Result<(), Fail> {
        let text = format!(in rt.alloc(); "{}", Refusal::NoMark)?;
        assert_eq!(rt;
            text.as_str(),
            "refusal 14: there is no earlier state to take back to"
        );
        Ok(())
    }

    #[test]
    fn equal_only_to_itself(rt: HostRuntime) {
        assert!(rt; Refusal::OverLimit == Refusal::OverLimit);
        assert!(rt; Refusal::OverLimit != Refusal::OutputTooShort);
    }
}
