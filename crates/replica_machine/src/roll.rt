//! The standings of nodes: which entries take effect, and which stay pending.
ghost use Rattle.std.specs.Prelude.{◌≡◌, ℕ, ◌<◌, ◌&&◌, ◌==◌, List, if◌then◌else◌};
ghost use Rattle.paxos_packets.specs.declared.entry.Entry.{Entry};
ghost use Rattle.replica_machine.specs.Roll.{is_new_boot, is_live, is_next, gone, standing_after, standing_in, IsRollOf, takes_effect};
ghost use Rattle.replica_machine.specs.Roll.{live_in, taken_in, is_wanted_by, was_taken, HasStandings};
ghost use Rattle.replica_machine.specs.Log.{first_roll};
ghost use Rattle.replica_machine.specs.Snapshot.{seven, standing_from_node};

use paxos_packets::Entry;
use std::marker::Model;

/// A node's standing after a log.
#[derive(Clone, Copy, Debug, PartialEq, Eq)]
pub enum Standing {
    /// The log has no Boot of the node.
    Unknown,
    /// The node is live in this boot, its greatest, and this many Items of the boot took effect.
    Live { boot: u64, taken: u64 },
    /// The node is lost in this boot, its greatest.
    Gone { boot: u64 },
}

impl Standing {
    // Returns whether a Boot of the node with this number takes effect.
    fn is_new_boot(self, boot: u64) -> bool
        ensures { result ≡ is_new_boot self boot }
    {
        match self {
            Standing::Unknown => true,
            Standing::Live { boot: last, .. } => last < boot,
            Standing::Gone { boot: last } => last < boot,
        }
    }

    /// Returns whether the boot is live, so that a Lost of it takes effect.
    pub fn is_live(self, boot: u64) -> bool
        ensures { result ≡ is_live self boot }
    {
        match self {
            Standing::Unknown => false,
            Standing::Live { boot: live, .. } => live == boot,
            Standing::Gone { .. } => false,
        }
    }

    // Returns whether an Item of the boot with this number takes effect.
    fn is_next(self, boot: u64, seq: u64) -> bool
        ensures { result ≡ is_next self boot seq }
    {
        match self {
            Standing::Unknown => false,
            Standing::Live { boot: live, taken } => live == boot && taken < seq && seq - taken == 1,
            Standing::Gone { .. } => false,
        }
    }

    // Returns whether the Item of the live boot with this number took effect.
    fn was_taken(self, boot: u64, seq: u64) -> bool
        ensures { result ≡ was_taken self boot seq }
    {
        match self {
            Standing::Unknown => false,
            Standing::Live { boot: live, taken } => live == boot && seq <= taken,
            Standing::Gone { .. } => false,
        }
    }

    /// Returns the standing of the node after one more entry. Does not allocate.
    pub fn after<B>(self, node: u8, entry: &Entry<B>) -> Standing
        ensures { result ≡ standing_after node self entry.now }
    {
        match entry {
            Entry::Noop => self,
            Entry::Boot { node: other, boot } => {
                if *other == node && self.is_new_boot(*boot) {
                    Standing::Live {
                        boot: *boot,
                        taken: 0,
                    }
                } else {
                    self
                }
            }
            Entry::Lost { node: other, boot } => {
                if *other == node && self.is_live(*boot) {
                    self.gone()
                } else {
                    self
                }
            }
            Entry::Item {
                node: other,
                boot,
                seq,
                ..
            } => {
                if *other == node && self.is_next(*boot, *seq) {
                    Standing::Live {
                        boot: *boot,
                        taken: *seq,
                    }
                } else {
                    self
                }
            }
        }
    }

    // Returns the standing after a Lost of the live boot.
    fn gone(self) -> Standing
        ensures { result ≡ gone self }
    {
        match self {
            Standing::Unknown => Standing::Unknown,
            Standing::Live { boot, .. } => Standing::Gone { boot },
            Standing::Gone { boot } => Standing::Gone { boot },
        }
    }
}

/// The standing of each node after a log, for every number that a node may have. It decides in constant time, whatever the log's length,
/// whether one more entry takes effect.
#[derive(Debug)]
pub struct Roll {
    standings: [Standing; 256],
}

impl Drop for Roll {
    fn drop(self) {
        let Roll {
            standings: _standings,
        } = self;
    }
}

impl Model for Roll {
    ghost use Rattle.std.specs.Prelude.{List};
    ghost use Rattle.replica_machine.specs.declared.roll.Standing.{Standing};

    ghost Value = { List Standing };

    ghost view = { λ r. r.standings };
}

impl Roll {
    /// Returns the roll of the empty log. Does not allocate.
    #[tactic(auto, unfolding(crate::specs::Log::first_roll))]
    pub fn new() -> Roll
        ensures first { result ≡ first_roll }
        ensures unknown { (n : ℕ) → n < 256 → standing_in result n ≡ Standing.Unknown }
    {
        Roll {
            standings: [Standing::Unknown; 256],
        }
    }

    /// Returns an equal roll. Does not allocate.
    pub fn copy(&self) -> Roll
        ensures { result ≡ self.now }
    {
        Roll {
            standings: self.standings,
        }
    }

    /// Returns the roll in which nodes 1 to 7 have these standings, and no other node is known. Does not allocate.
    pub fn of(standings: [Standing; 7]) -> Roll
        ensures { (n : ℕ) → n < 256 → standing_in result n ≡ standing_from_node 1 n standings }
    {
        let [a, b, c, d, e, f, g] = standings;
        let mut roll = Roll::new();
        roll.put(7, g);
        roll.put(6, f);
        roll.put(5, e);
        roll.put(4, d);
        roll.put(3, c);
        roll.put(2, b);
        roll.put(1, a);
        roll
    }

    /// Returns the standings of nodes 1 to 7. Does not allocate.
    pub fn seven(&self) -> [Standing; 7]
        ensures { result ≡ seven self.now }
    {
        [
            self.standing(1),
            self.standing(2),
            self.standing(3),
            self.standing(4),
            self.standing(5),
            self.standing(6),
            self.standing(7),
        ]
    }

    /// Returns the node's standing. Does not allocate.
    pub fn standing(&self, node: u8) -> Standing
        ensures { result ≡ standing_in self.now node }
    {
        self.standings[node as usize]
    }

    // Sets the node's standing.
    fn put(&mut self, node: u8, standing: Standing)
        ensures { (n : ℕ) → n < 256 → standing_in self.new n ≡ (if node == n then standing else standing_in self.old n) }
    {
        self.standings[node as usize] = standing;
    }

    /// Goes on over one more entry, and returns whether it takes effect. Does not allocate, and takes constant time.
    pub fn take<B>(&mut self, entry: &Entry<B>) -> bool
        ensures standings { (n : ℕ) → n < 256 → standing_in self.new n ≡ standing_after n (standing_in self.old n) entry.now }
        ensures took { (log : List (Entry B)) → IsRollOf log self.old → result ≡ takes_effect log entry.now }
    {
        match entry {
            Entry::Noop => false,
            Entry::Boot { node, boot } => self.take_boot(*node, *boot),
            Entry::Lost { node, boot } => self.take_lost(*node, *boot),
            Entry::Item {
                node,
                boot,
                seq,
                ..
            } => self.take_item(*node, *boot, *seq),
        }
    }

    /// Returns whether the entry stays pending: it is no Boot or Item that took effect, and no Lost whose boot is not live. Does not
    /// allocate, and takes constant time.
    pub fn wants<B>(&self, entry: &Entry<B>) -> bool
        ensures { (stands : ℕ → Standing) → HasStandings stands self.now → result ≡ is_wanted_by stands entry.now }
    {
        match entry {
            Entry::Noop => false,
            Entry::Boot { node, boot } => self.standing(*node).is_new_boot(*boot),
            Entry::Lost { node, boot } => self.standing(*node).is_live(*boot),
            Entry::Item {
                node,
                boot,
                seq,
                ..
            } => !self.standing(*node).was_taken(*boot, *seq),
        }
    }

    // Goes on over a Boot.
    fn take_boot(&mut self, node: u8, boot: u64) -> bool
        ensures standings { (n : ℕ) → n < 256 → standing_in self.new n
            ≡ (if (node == n) && is_new_boot (standing_in self.old n) boot then Standing.Live boot 0 else standing_in self.old n) }
        ensures took { result ≡ is_new_boot (standing_in self.old node) boot }
    {
        let took = self.standing(node).is_new_boot(boot);
        if took {
            self.put(node, Standing::Live { boot, taken: 0 });
        }
        took
    }

    // Goes on over a Lost.
    fn take_lost(&mut self, node: u8, boot: u64) -> bool
        ensures standings { (n : ℕ) → n < 256 → standing_in self.new n
            ≡ (if (node == n) && is_live (standing_in self.old n) boot then gone (standing_in self.old n) else standing_in self.old n) }
        ensures took { result ≡ is_live (standing_in self.old node) boot }
    {
        let standing = self.standing(node);
        let took = standing.is_live(boot);
        if took {
            self.put(node, standing.gone());
        }
        took
    }

    // Goes on over an Item.
    fn take_item(&mut self, node: u8, boot: u64, seq: u64) -> bool
        ensures standings { (n : ℕ) → n < 256 → standing_in self.new n
            ≡ (if (node == n) && is_next (standing_in self.old n) boot seq then Standing.Live boot seq else standing_in self.old n) }
        ensures took { result ≡ is_next (standing_in self.old node) boot seq }
    {
        let took = self.standing(node).is_next(boot, seq);
        if took {
            self.put(node, Standing::Live { boot, taken: seq });
        }
        took
    }

    /// Returns the live boot of the node, or `None` if it has none. Does not allocate.
    pub fn live(&self, node: u8) -> Option<u64>
        ensures { result ≡ live_in (standing_in self.now node) }
    {
        match self.standing(node) {
            Standing::Unknown => None,
            Standing::Live { boot, .. } => Some(boot),
            Standing::Gone { .. } => None,
        }
    }

    /// Returns how many Items of the node's live boot took effect, or 0 if it has none. Does not allocate.
    pub fn taken(&self, node: u8) -> u64
        ensures { result ≡ taken_in (standing_in self.now node) }
    {
        match self.standing(node) {
            Standing::Unknown => 0,
            Standing::Live { taken, .. } => taken,
            Standing::Gone { .. } => 0,
        }
    }
}
