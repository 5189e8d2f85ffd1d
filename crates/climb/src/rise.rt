// The rows of a block's targets, from the slots up.
ghost use Rattle.std.specs.Prelude.{◌≡◌, ◌+◌, ◌/◌, ◌^◌, ◌<◌, ◌≤◌, [], map, length, None};
ghost use Rattle.inline_list.specs.InlineList.{listed};
ghost use Rattle.targets.specs.Spends.{target_of, targets};
ghost use Rattle.targets.specs.Targets.{placed};
ghost use Rattle.climb.specs.Rows.{front, past, spent_item, merge, left_of, stepped, step};
ghost use Rattle.climb.specs.Held.{hashes_in};

use crate::hashes::Hashes;
use crate::item::{Item, Row};
use crate::step::{count_row, merge_row, step_row};
use compression::Compression;
use targets::placed::Targets;
use targets::spend::Spend;

// What goes up from row to row: the targets of the rows to come, the items that come from the row below, and the hashes.
#[derive(Drop)]
pub(crate) struct Rise<'a> {
    count: u32,
    left: &'a [Spend],
    carried: Row,
    pub(crate) hashes: Hashes<'a>,
    ghost few: { length (listed carried) + length left.now ≤ 32 },
}

impl Rise<'_> {
    // Where the rows begin: nothing comes from below the slots.
    pub(crate) fn new<'a>(targets: &'a Targets, hashes: &'a [u8]) -> Rise<'a>
        ensures count { result.count ≡ targets.now.count }
        ensures left { map target_of result.left.now ≡ placed targets.now }
        ensures carried { listed result.carried ≡ [] }
        ensures hashes { (result.hashes.bytes.now ≡ hashes.now) × (result.hashes.used ≡ 0) }
    {
        Rise {
            count: targets.count(),
            left: targets.as_slice(),
            carried: Row::new(),
            hashes: Hashes {
                bytes: hashes,
                used: 0,
            },
        }
    }

    // Works a row out, once those below it are, and goes up. The answer is the item of the row's root, if that is covered.
    pub(crate) fn work<C: Compression>(&mut self, row: u8, items: &mut Row) -> Option<Item>
        requires low { row < 32 }
        requires fits { self.old.hashes.used < 2 ^ 32 }
        ensures items { listed items.new ≡ merge left_of (listed self.old.carried) (map (spent_item C.Compression.image) (front row (targets self.old.left.now))) }
        ensures room { length (listed items.new) ≤ 32 }
        ensures left { targets self.new.left.now ≡ past row (targets self.old.left.now) }
        ensures made { stepped (listed self.new.carried) result self.new.hashes.used ≡ step C.Compression.image (hashes_in self.old.hashes.bytes.now) (self.old.count / 2 ^ row) self.old.hashes.used None (listed items.new) }
        ensures used { self.new.hashes.used ≤ self.old.hashes.used + 32 }
        ensures same { (self.new.count ≡ self.old.count) × (self.new.hashes.bytes ≡ self.old.hashes.bytes) }
    {
        let (here, higher) = self.left.split_at(count_row(self.left, row));
        merge_row::<C>(self.carried.as_slice(), here, items);
        let width = self.count >> row;
        let aside = step_row::<C>(items.as_slice(), width, &mut self.hashes, &mut self.carried);
        self.left = higher;
        aside
    }
}
