//! What holds of every target.
ghost use Rattle.gd_item.specs.Written.{IsWritten};
ghost use Rattle.gd_item.specs.declared.request.Request.{Request};
ghost use Rattle.gd_target.specs.Asked.{IsKnown, IsReadAgain};

/// A written target names what it was written for.
pub fn targets_read_back()
    ensures { (request : Request) → IsWritten request → IsKnown request → IsReadAgain request }
{}
