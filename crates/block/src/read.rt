// Reading a block: the checks first, then the entries one at a time.
ghost use Rattle.std.specs.Prelude.{◌≡◌, ◌<◌};
ghost use Rattle.utreexo.specs.Checks.{read_causes};
ghost use Rattle.utreexo.specs.Outcomes.{Judged};
ghost use Rattle.block.specs.Reader.{counts_in, coins_end, next_offset, Reads, RunReads};

use crate::entry::{Counts, Entry};
use refusal::Refusal;

// The counts of a block of which length and counts are right: the check that comes before the reader.
pub fn check_length(block: &[u8]) -> Result<Counts, Refusal>
    ensures { Judged (read_causes block.now) (λ c. c ≡ counts_in block.now) result }
{
    let [d0, d1, h0, h1, a0, a1, ..] = block else {
        return Err(Refusal::BlockTooShort);
    };
    // The pattern names the six bytes; `Record::from_bytes` over chunks of two would be no plainer.
    let counts = Counts {
        spent: u16::from_le_bytes([*d0, *d1]),
        hashes: u16::from_le_bytes([*h0, *h1]),
        coins: u16::from_le_bytes([*a0, *a1]),
    };
    if counts.spent > 32 || counts.hashes > 992 || counts.coins > 32 {
        return Err(Refusal::OverLimit);
    }
    if block.len() != counts.coins_end() {
        return Err(Refusal::WrongLength);
    }
    Ok(counts)
}

// The offset of the entry after the one at this offset; the first, after none, is at 6.
fn next_offset(counts: Counts, before: usize) -> usize
    requires { before < coins_end counts }
    ensures { result ≡ next_offset counts before }
{
    if before < 6 {
        6
    } else if before < counts.targets_end() {
        before + 8
    } else {
        before + 32
    }
}

// The entry after the one at this offset (0 for none yet), with its own offset from the block's first byte and the unread rest. So
// what is given back is what the next call is given. Where no entry is left, or too few bytes are, the answer is the end.
// By a rule of the project the answer is this tuple, returned as it is.
pub fn next<'a>(counts: Counts, offset: usize, rest: &'a [u8]) -> (Entry<'a>, usize, &'a [u8])
    ensures { Reads counts offset rest.now result }
{
    let end = (Entry::End, offset, rest);
    if offset >= counts.coins_end() {
        return end;
    }
    let at = next_offset(counts, offset);
    if at < counts.targets_end() {
        let Some((bytes, after)) = rest.split_first_chunk::<8>() else {
            return end;
        };
        return (Entry::Target(bytes), at, after);
    }
    let Some((bytes, after)) = rest.split_first_chunk::<32>() else {
        return end;
    };
    if at < counts.spent_end() {
        (Entry::Spent(bytes), at, after)
    } else if at < counts.hashes_end() {
        (Entry::Hash(bytes), at, after)
    } else if at < counts.coins_end() {
        (Entry::New(bytes), at, after)
    } else {
        end
    }
}

// The reader's run over a readable block, begun with the offset 0, gives its entries in order, with their offsets, and they join up to
// the block. The function does nothing: its contract is that law.
pub fn run_reads()
    ensures { RunReads 0 }
{}
