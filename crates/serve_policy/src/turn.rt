// What a turn of a node brought, as far as time is counted by it.
ghost use Rattle.std.specs.Prelude.{◌≡◌};
ghost use Rattle.serve_policy.specs.Signs.{is_at_work, is_told};

/// What the packet of a turn showed of the cluster's work.
#[derive(Clone, Copy, Debug, PartialEq, Eq)]
pub enum Sign {
    /// Nothing by which time is counted, or there was no packet.
    Nothing,
    /// This owner asks for promises of a ballot, and the node has promised it now: its votes are for so many slots after its log.
    Prepared { owner: u8, slots: u32 },
    /// A vote is asked for, or a vote or a promise is reported, in a ballot of this owner that is not below the one that the node has promised.
    AtWork { owner: u8 },
    /// The node's own ballot was refused, since one of this owner is promised.
    Refused { owner: u8 },
    /// Another node reported an entry that it has learned.
    Told,
}

/// What a turn of a node brought.
#[derive(Clone, Copy, Debug, PartialEq, Eq)]
pub struct Turn {
    /// Whose packet it treated, if it treated one.
    pub from: Option<u8>,
    /// What that packet showed.
    pub sign: Sign,
    /// How many entries the node has applied.
    pub applied: u64,
    /// Whether entries of the node are pending.
    pub is_pending: bool,
    /// How many beats are due, 0 if none is.
    pub beats: u64,
}

impl Sign {
    // Returns whether a ballot is at work.
    pub(crate) fn is_at_work(self) -> bool
        ensures { result ≡ is_at_work self }
    {
        match self {
            Sign::Nothing => false,
            Sign::Prepared { .. } => true,
            Sign::AtWork { .. } => true,
            Sign::Refused { .. } => false,
            Sign::Told => false,
        }
    }

    // Returns whether an entry was reported.
    pub(crate) fn is_told(self) -> bool
        ensures { result ≡ is_told self }
    {
        match self {
            Sign::Nothing => false,
            Sign::Prepared { .. } => false,
            Sign::AtWork { .. } => false,
            Sign::Refused { .. } => false,
            Sign::Told => true,
        }
    }
}
