// Settling a draft in its family.
ghost use Rattle.std.specs.Prelude.{◌≡◌, ◌<◌, List, OnOk, length};
ghost use Rattle.quotient.specs.Quotients.{view_of};
ghost use Rattle.keyed_quotient.specs.KeyedQuotients.{KeyedQuotient};
ghost use Rattle.bisim_spec.specs.declared.sides.Sides.{Sides};
ghost use Rattle.ak_family.specs.Families.{HaveMembers, IsKeyedFamily, HaveSupportedKeys};
ghost use Rattle.ak_family.specs.LevelDrafts.{AreOver, AreSeenAs, HaveReserved, ShowsFamily, ShowsKeys, AreSettled, AreEmpty};

use crate::drafting::{AkDraft, draft_of};
use crate::family::AkFamily;
use keyed_quotient::{KeyedDraft, KeyedSummary};
use px_base::Memory;

impl AkFamily {
    /// Reserves the capacity that settling this draft needs. It leaves the family as it is seen. Expected O(k + d + l)
    /// for d entries that are drafted, with keys of l numbers together, and linear in a table of a level where that
    /// moves; it takes what the drafted entries take there. Where a level holds many keys of blocks that are gone, or
    /// long ones, these are dropped first, in time linear in its block numbers and keys.
    pub fn reserve(&mut self, d: &AkDraft) -> Result<(), Memory>
        requires over { AreOver self.old d.now }
        ensures same { AreSeenAs self.old self.new }
        ensures over { AreOver self.new d.now }
        ensures supported { (sides : Sides) → HaveSupportedKeys sides self.old → HaveSupportedKeys sides self.new }
        ensures shows { ShowsFamily self.old d.now → ShowsFamily self.new d.now }
        ensures keys { (sides : Sides) → ShowsKeys sides self.old d.now → ShowsKeys sides self.new d.now }
        ensures settled { (f : List KeyedQuotient) → AreSettled self.new d.now f → AreSettled self.old d.now f }
        ensures reserved { OnOk result (HaveReserved self.new d.now) }
    {
        reserve_all(&mut self.levels, &d.levels)?;
        Ok(())
    }

    /// Makes the family what the draft shows, without blocks that have no members, and drops what was drafted. It can't
    /// fail and takes no memory. Expected O(k + d + l) for d entries that are drafted, with keys of l numbers together,
    /// and what `clear` takes.
    pub fn settle(&mut self, d: &mut AkDraft)
        requires reserved { HaveReserved self.old d.old }
        requires shows { ShowsFamily self.old d.old }
        ensures settled { AreSettled self.old d.old self.new }
        ensures keyed { IsKeyedFamily self.new }
        ensures supported { (sides : Sides) → ShowsKeys sides self.old d.old → HaveSupportedKeys sides self.new }
        ensures count { length d.new ≡ length d.old }
        ensures empty { AreEmpty d.new }
        ensures over { AreOver self.new d.new }
    {
        settle_all(&mut self.levels, &mut d.levels);
    }
}

// Reserves the capacity at each level.
fn reserve_all(levels: &mut Vec<KeyedSummary>, drafts: &Vec<KeyedDraft>) -> Result<(), Memory>
    requires over { AreOver levels.old.items drafts.now.items }
    ensures same { AreSeenAs levels.old.items levels.new.items }
    ensures reserved { OnOk result (HaveReserved levels.new.items drafts.now.items) }
{
    'levels: for i in 0..levels.len() {
        draft_of(drafts, i).reserve(&mut levels[i])?;
    }
    Ok(())
}

// Settles the draft of each level.
fn settle_all(levels: &mut Vec<KeyedSummary>, drafts: &mut Vec<KeyedDraft>)
    requires reserved { HaveReserved levels.old.items drafts.old.items }
    requires shows { ShowsFamily levels.old.items drafts.old.items }
    requires inhabited { HaveMembers levels.old.items }
    ensures settled { AreSettled levels.old.items drafts.old.items levels.new.items }
    ensures count { length drafts.new.items ≡ length drafts.old.items }
    ensures empty { AreEmpty drafts.new.items }
{
    'levels: for i in 0..levels.len() {
        drafts[i].settle(&mut levels[i]);
    }
}
