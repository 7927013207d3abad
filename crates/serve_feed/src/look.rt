// Which lane is looked at next. A look goes round all lanes once; a lane that may have more is left after some requests, and looked at again after
// the others.

/// How many requests in a row are taken out of one lane.
const REQUESTS_A_VISIT: u8 = 8;

// A look: which lane it is at, how many lanes are left in this round, how many requests were taken at this one, and whether one more round is due.
#[derive(Clone, Copy, Drop)]
pub(crate) struct Look {
    place: usize,
    left: usize,
    taken: u8,
    again: bool,
}

impl Look {
    // Returns a look at no lane.
    pub fn new() -> Look {
        Look {
            place: 0,
            left: 0,
            taken: 0,
            again: false,
        }
    }

    // Begins a new round: any lane may have something.
    pub fn stir(&mut self) {
        self.again = true;
    }

    // Returns whether a lane is left to be looked at.
    pub fn is_on(&self) -> bool {
        self.again || self.left > 0
    }

    // Returns the lane to look at, of this many; `None` once all were looked at.
    pub fn place(&mut self, lanes: usize) -> Option<usize> {
        if self.left == 0 {
            if !self.again {
                return None;
            }
            self.again = false;
            self.left = lanes;
        }
        if self.place >= lanes {
            self.place = 0;
        }
        if self.left == 0 {
            None
        } else {
            Some(self.place)
        }
    }

    // Notes that a request was taken. Returns whether the lane is left for now.
    pub fn took(&mut self) -> bool {
        self.taken = self.taken.saturating_add(1);
        if self.taken < REQUESTS_A_VISIT {
            return false;
        }
        self.again = true;
        self.leave();
        true
    }

    // Leaves the lane. Returns whether a request was taken there.
    pub fn leave(&mut self) -> bool {
        let took = self.taken > 0;
        self.taken = 0;
        self.left = self.left.saturating_sub(1);
        self.place = self.place.saturating_add(1);
        took
    }

    // Notes that the lane was removed: the next one has its place.
    pub fn removed(&mut self) {
        self.taken = 0;
        self.left = self.left.saturating_sub(1);
    }

    // Notes that the lane at this place was removed by another look: those after it have moved.
    pub fn passed_over(&mut self, place: usize) {
        if place < self.place {
            self.place = self.place.saturating_sub(1);
        } else if place == self.place {
            self.taken = 0;
        }
    }
}
