//! What holds of generated scripts.
ghost use Rattle.mq_script.specs.Laws.{ArePacketsTaken};

/// Each generated packet has a header that is taken, and that says what was drawn.
pub fn packets_are_taken()
    ensures { ArePacketsTaken }
{}
