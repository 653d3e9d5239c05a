//! The place in a proof at which the next byte stands.

/// What has been read of a step.
#[derive(Clone, Copy)]
pub enum Begun {
    /// No literal, and no letter `d`.
    Nothing,
    /// A literal of an addition at least.
    Addition,
    /// The letter `d` of a deletion at least.
    Deletion,
}

/// The place at which the next byte stands. In a number, `Digits` and `Bits`, it has what was read of the number.
#[derive(Clone, Copy)]
pub enum Place {
    /// Between two words of a text.
    Gap,
    /// After the letter `d` of a text, which white space must follow.
    Letter,
    /// In a comment of a text, which goes to the end of its line.
    Comment,
    /// After the minus of a text's number, which a digit must follow.
    Minus,
    /// In a text's number: whether it has a minus, and the value of its digits so far.
    Digits(bool, u32),
    /// Between two steps in binary form.
    Step,
    /// In a number in binary form: the value of its bytes so far, and the weight of the next byte, a power of 128.
    Bits(u64, u64),
    /// After the empty clause: what follows is not read.
    Refuted,
}
