// How nodes post what waits for the others, as many packets together as a box holds.
use crate::cluster::{Cluster, place};

impl Cluster {
    // Whether the box for packets of one node to another is empty.
    fn is_free(&self, from: u8, to: u8) -> bool {
        self.nodes.get(place(to)).is_some_and(|node| node
            .boxes
            .get(usize::from(from))
            .is_some_and(|packets| packets.is_empty()))
    }

    // How many packets wait at a node for another.
    fn waiting(&self, from: u8, to: u8) -> usize {
        match self.nodes.get(place(from)) {
            Some(node) => node.waiting_for(to),
            None => 0,
        }
    }

    // Posts the oldest packets that wait at a node for another, as many together as a box holds, if the box is empty. Returns whether it did.
    fn post(&mut self, from: u8, to: u8) -> bool {
        if from == to || !self.is_free(from, to) {
            return false;
        }
        let count = self.waiting(from, to).min(self.together);
        for more in (0..count).rev() {
            self.put(from, to, more);
        }
        count > 0
    }

    // Puts the oldest packet that waits at a node for another into the box, if it is not lost. So many are put there after it.
    fn put(&mut self, from: u8, to: u8, more: usize) {
        let Some(node) = self.nodes.get_mut(place(from)) else {
            return;
        };
        let Some(packet) = node.take(to, more) else {
            return;
        };
        if self.is_lost() {
            return;
        }
        if let Some(node) = self.nodes.get_mut(place(to))
            && let Some(room) = node.boxes.get_mut(usize::from(from))
        {
            let _is_put = room.push_back(packet).is_ok();
        }
    }

    // Whether a packet that is posted now is lost.
    fn is_lost(&mut self) -> bool {
        self.now < self.schedule.calm
            && self.schedule.loss > 0
            && self.draws.is_one_in(self.schedule.loss)
    }

    // Whether the round of a node took packets of another for whose further packets there is room now.
    fn makes_room(&self, me: u8, from: u8) -> bool {
        self.waiting(from, me) > 0
            && self
                .nodes
                .get(place(me))
                .is_some_and(|node| node.heard_of(from))
    }

    // A node posts what waits, and wakes, once each, the nodes that its round concerns: those to which it posted, and those of which it took
    // packets, if further ones wait. Returns whether it posted anything.
    pub(super) fn post_all(&mut self, me: u8) -> bool {
        let mut has_posted = false;
        for other in 1..self.members.count().saturating_add(1) {
            let is_posted = self.post(me, other);
            if is_posted && !self.is_free(me, other) || self.makes_room(me, other) {
                self.wake(other);
            }
            has_posted = has_posted || is_posted;
        }
        has_posted
    }
}
