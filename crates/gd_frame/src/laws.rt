ghost use Rattle.gd_frame.specs.Frames.{IsRequest, IsReply};
ghost use Rattle.gd_frame.specs.Syntax.{requests, replies};
ghost use Rattle.gd_frame.specs.Laws.{OneReading, NoPrefix, BadForGood, OneFrame, WholeIsDone, CutAnywhere};
ghost use Rattle.gd_frame.specs.declared.message.Kind.{Kind};

/// However a stream is cut, its messages are these and no others.
pub fn one_reading()
    ensures { (kind : Kind) → OneReading kind }
{}

/// No message is a proper prefix of another.
pub fn no_prefix()
    ensures { (kind : Kind) → NoPrefix kind }
{}

/// Bytes that have a cause begin no message, whatever follows.
pub fn bad_for_good()
    ensures { (kind : Kind) → BadForGood kind }
{}

/// Bytes are one request at most.
pub fn one_request()
    ensures { OneFrame IsRequest }
{}

/// Bytes are one reply at most.
pub fn one_reply()
    ensures { OneFrame IsReply }
{}

/// A whole request is given as such, whatever follows it.
pub fn whole_request_done()
    ensures { WholeIsDone requests IsRequest }
{}

/// A whole reply is given as such, whatever follows it.
pub fn whole_reply_done()
    ensures { WholeIsDone replies IsReply }
{}

/// A stream of requests may be cut anywhere.
pub fn requests_cut_anywhere()
    ensures { CutAnywhere requests IsRequest }
{}

/// A stream of replies may be cut anywhere.
pub fn replies_cut_anywhere()
    ensures { CutAnywhere replies IsReply }
{}
