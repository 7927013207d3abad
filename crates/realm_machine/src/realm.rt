//! The realm: how it is made, and how it takes acts and the end of a node.
ghost use Rattle.std.specs.Prelude.{◌≡◌, Some, string_bytes, IfOk};
ghost use Rattle.realm_machine.specs.Content.{empty, limits_in};
ghost use Rattle.realm_machine.specs.Realm.{Acts, Goes};
ghost use Rattle.realm_machine.specs.Parts.{Shows};

use crate::config::{Config, Limits};
use crate::content::Content;
use crate::parts::Parts;
use crate::sayings::Say;
use paxos_packets::Transport;
use realm_acts::Act;
use replica_machine::Failed;
use std::alloc::Global;
use std::marker::Model;
use wamp_ids::Text;

/// One realm of a router: its sessions, its registrations with their callees, its subscriptions with their members, and its open
/// calls.
pub struct Realm {
    pub(crate) config: Config,
    // `None` once the realm has failed. Its limits are the configuration's.
    pub(crate) content: Option<Content>,
}

impl Drop for Realm {
    fn drop(self) {
        let Realm {
            config: _config,
            content: _content,
        } = self;
    }
}

impl Model for Realm {
    ghost use Rattle.realm_machine.specs.Realm.{State, IsLimited};

    ghost Value = { State };

    ghost view = { λ a. record { config = a.config; content = a.content } };

    ghost invariant = { λ a. IsLimited a.config a.content };
}

impl Realm {
    /// Creates a realm of this name, with no transport. Does not allocate.
    pub fn new(alloc: Global, name: String, limits: Limits) -> Realm
        ensures config { result.config ≡ record { name = string_bytes name; limits = limits } }
        ensures content { result.content ≡ Some (empty limits) }
    {
        Realm {
            config: Config {
                name: Text::from(name),
                limits,
            },
            content: Some(Content::new(alloc, limits)),
        }
    }

    /// Returns the realm's name and limits, and what it holds. Fails if the realm has failed. Does not allocate.
    pub fn parts(&self) -> Result<Parts<'_>, Failed>
        ensures shown { Shows self.now result }
        ensures limits { IfOk result (λ parts. limits_in parts.content ≡ parts.config.limits) }
    {
        let Some(content) = &self.content else {
            return Err(Failed);
        };
        Ok(Parts::of(&self.config, content))
    }

    /// Takes one act at a transport, and returns what the realm says to which transports, in order.
    ///
    /// Fails only if memory runs out. The realm has failed then, and returns the same error for each later call.
    ///
    /// Cost: a number of steps that is logarithmic in the realm's content: to find a transport, a session, a call, a registration or a
    /// subscription, for each receiver of an event, for each call that ends with a session and for each group that it leaves. A PUBLISH and
    /// a CALL take a look-up for each length of prefixes and each shape of wildcards in use. Joining or leaving a registration goes over
    /// its callees.
    pub fn act(&mut self, transport: Transport, act: &Act) -> Result<Vec<Say>, Failed>
        ensures act { Acts self.old.config self.old.content transport act.now result self.new.content }
        ensures config { self.new.config ≡ self.old.config }
    {
        let Some(content) = &mut self.content else {
            return Err(Failed);
        };
        let Ok(says) = content.on_act(&self.config, transport, act) else {
            drop(self.content.take());
            return Err(Failed);
        };
        Ok(says)
    }

    /// Removes the transports of this node, one after the other, in the order in which they came, and returns what the realm says to which
    /// transports, in order.
    ///
    /// Fails only if memory runs out. The realm has failed then, and returns the same error for each later call.
    ///
    /// Cost: that of the end of a session for each transport of the node.
    pub fn gone(&mut self, node: u8) -> Result<Vec<Say>, Failed>
        ensures gone { Goes self.old.content node result self.new.content }
        ensures config { self.new.config ≡ self.old.config }
    {
        let Some(content) = &mut self.content else {
            return Err(Failed);
        };
        let Ok(says) = content.gone(node) else {
            drop(self.content.take());
            return Err(Failed);
        };
        Ok(says)
    }
}
