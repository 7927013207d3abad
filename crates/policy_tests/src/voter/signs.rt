// What the packets of a round show, by the rules of a served node's feed.
use crate::voter::{NO_BALLOT, Packet, Says, Voter, bit};
use paxos_packets::Ballot;
use serve_policy::Sign;

impl Voter {
    // How many entries its votes reach after its log, if a slot stands for so many.
    fn ahead(&self, entries: u32) -> u32 {
        let mut ahead: u32 = 0;
        for slot in self.applied..64 {
            if self.votes & bit(slot) != 0 {
                ahead = u32::from(slot.saturating_sub(self.applied)).saturating_add(1);
            }
        }
        ahead.saturating_mul(entries)
    }

    // What a packet of a round that is over shows, by the rules of a served node's feed, if the node had promised the ballot `before` before it.
    // A slot stands for so many entries.
    pub fn sign_of(&self, packet: Packet, before: Ballot, entries: u32) -> Sign {
        if self.promised == NO_BALLOT {
            return Sign::Nothing;
        }
        match packet.says {
            Says::Prepare { .. } => {
                if packet.ballot != self.promised || before == self.promised {
                    return Sign::Nothing;
                }
                Sign::Prepared {
                    owner: packet.ballot.node,
                    slots: self.ahead(entries),
                }
            },
            Says::Promise { .. } | Says::Accept { .. } | Says::Accepted { .. } => {
                if packet.ballot.is_below(&self.promised) {
                    return Sign::Nothing;
                }
                Sign::AtWork {
                    owner: packet.ballot.node,
                }
            },
            Says::Nack { promised } => {
                if packet.ballot == self.promised && packet.ballot.is_below(&promised) {
                    return Sign::Refused {
                        owner: promised.node,
                    };
                }
                Sign::Nothing
            },
            Says::Learned { .. } => Sign::Told,
            Says::Forward { .. } | Says::Ask { .. } => Sign::Nothing,
        }
    }
}
