//! What holds of every stream of messages.
ghost use Rattle.gd_frame.specs.declared.message.Kind.{Kind};
ghost use Rattle.gd_frame.specs.Laws.{OneFrame, WholeIsDone, CutAnywhere};
ghost use Rattle.gd_frame.specs.Syntax.{requests, replies};
ghost use Rattle.gd_http.specs.Hearing.{RequestBytes, RequestCloses};
ghost use Rattle.gd_http.specs.HearingReplies.{Listening, ReplyBytes};
ghost use Rattle.gd_http.specs.Laws.{OneHearing, OneCause, RestGrows, RestEnds, MeaninglessForGood, WholeReplyIsDone, WholeReplyIsBad, RepliesCutAnywhere};

/// Bytes ask for one thing at most, and say one thing of closing.
pub fn one_request()
    ensures asked { OneFrame RequestBytes }
    ensures closes { OneFrame RequestCloses }
{}

/// Bytes answer a request of a kind in one way at most.
pub fn one_reply()
    ensures { (l : Listening) → OneFrame (ReplyBytes l) }
{}

/// However a stream is cut, its messages ask for these things and no others.
pub fn one_hearing_of_requests()
    ensures { OneHearing requests RequestBytes }
{}

/// The same of replies.
pub fn one_hearing_of_replies()
    ensures { (l : Listening) → OneHearing replies (ReplyBytes l) }
{}

/// What a stream says so far grows with each piece: by its rest, or by a message that the rest begins with.
pub fn streams_go_on()
    ensures requests_grow { RestGrows RequestBytes }
    ensures requests_end { RestEnds RequestBytes }
    ensures replies_grow { (l : Listening) → RestGrows (ReplyBytes l) }
    ensures replies_end { (l : Listening) → RestEnds (ReplyBytes l) }
{}

/// Bytes that begin no message have one cause, the first.
pub fn one_cause()
    ensures { (kind : Kind) → OneCause kind }
{}

/// A whole request is given as such, whatever follows it.
pub fn whole_request_done()
    ensures { WholeIsDone requests RequestBytes }
{}

/// A whole reply is given as such, whatever follows it, and refused where it answers no such request.
pub fn whole_reply_done()
    ensures done { (l : Listening) → WholeReplyIsDone l }
    ensures bad { (l : Listening) → WholeReplyIsBad l }
    ensures for_good { (l : Listening) → MeaninglessForGood l }
{}

/// A stream of requests may be cut anywhere.
pub fn requests_cut_anywhere()
    ensures { CutAnywhere requests RequestBytes }
{}

/// A stream of replies may be cut anywhere.
pub fn replies_cut_anywhere()
    ensures { (l : Listening) → RepliesCutAnywhere l }
{}
