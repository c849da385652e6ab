//! A law of every legal history. The function does nothing.
ghost use Rattle.mq_iptun.specs.Answers.{AnswersCanBeTold, IsToldShort};

/// What a legal history answers to a call that may be made is within what a control capsule may hold, where it has a list at
/// all, and that capsule has at most 4,096 bytes.
pub fn answers_can_be_told()
    ensures told { AnswersCanBeTold }
    ensures short { IsToldShort }
{}
