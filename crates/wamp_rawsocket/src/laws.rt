//! Laws of the framing, each the contract of a function that does nothing.
ghost use Rattle.wamp_rawsocket.specs.Laws.{TermsTellTheLimit, WholeIsItsOctets, FrameIsReadBack, WholeStays, WholeLeavesLess};
ghost use Rattle.wamp_rawsocket.specs.Laws.{FaultStays, FramesAtWhole, FramesAtFault, FramesAtEnd, FramesReadBack, StreamIsItsFrames};

/// The octets that accept a client announce the limit that the splitter keeps.
pub fn terms_tell_the_limit()
    ensures { TermsTellTheLimit }
{}

/// A whole frame at the front of a stream is the octets there, and no longer than is received.
#[tactic(auto, using(crate::proofs::Fronts::front_whole_octets))]
pub fn whole_is_its_octets()
    ensures { WholeIsItsOctets }
{}

/// A frame's octets are read back as that frame, whatever follows.
#[tactic(auto, using(crate::proofs::Fronts::front_read_back))]
pub fn frame_is_read_back()
    ensures { FrameIsReadBack }
{}

/// A whole frame at the front of a stream stays there when more octets come.
#[tactic(auto, using(crate::proofs::Fronts::front_whole_more))]
pub fn whole_stays()
    ensures { WholeStays }
{}

/// What follows a whole frame is shorter than the stream that begins with it, so taking frames comes to an end.
#[tactic(auto, using(crate::proofs::Streams::whole_leaves_less))]
pub fn whole_leaves_less()
    ensures { WholeLeavesLess }
{}

/// A fault at the front of a stream stays there when more octets come.
#[tactic(auto, using(crate::proofs::Fronts::front_fault_more))]
pub fn fault_stays()
    ensures { FaultStays }
{}

/// A stream that begins with a whole frame has that frame and those of what follows it, however
/// the stream is cut.
#[tactic(auto, using(crate::proofs::Streams::frames_at_whole))]
pub fn frames_at_whole()
    ensures { FramesAtWhole }
{}

/// A stream that begins with a fault has no frame.
#[tactic(auto, using(crate::proofs::Streams::frames_at_fault))]
pub fn frames_at_fault()
    ensures { FramesAtFault }
{}

/// A stream that ends within its first frame has no frame.
#[tactic(auto, using(crate::proofs::Streams::frames_at_end))]
pub fn frames_at_end()
    ensures { FramesAtEnd }
{}

/// Frames that are written one after another are read back as those frames.
#[tactic(auto, using(crate::proofs::Streams::frames_read_back))]
pub fn frames_read_back()
    ensures { FramesReadBack }
{}

/// A stream is its frames, followed by a rest that is no whole frame or that shows a fault.
#[tactic(auto, using(crate::proofs::Streams::stream_frames))]
pub fn stream_is_its_frames()
    ensures { StreamIsItsFrames }
{}
