//! What holds of the code itself.
ghost use Rattle.mq_huff.specs.Laws.{HaveAnAnswer, HaveOneCoding, HaveOneFault, HaveOneReading, HaveTextOrFault, IsComplete, IsPrefixFree, IsTheCode, HasItsLength};

/// The table is a whole code: no code begins another, and any 30 bits begin with one.
pub fn whole_code()
    ensures prefix_free { IsPrefixFree }
    ensures complete { IsComplete }
{}

/// No bytes are the code of two texts. So what `encode` wrote, `decode` reads as the text that it was.
pub fn one_reading()
    ensures { HaveOneReading }
{}

/// A text has one code.
pub fn one_coding()
    ensures { HaveOneCoding }
{}

/// Bytes that are the code of a text have no fault, and no bytes have both faults. So what the clauses of `decode`
/// say of an answer, they say of no other answer.
pub fn one_answer()
    ensures text_or_fault { HaveTextOrFault }
    ensures one_fault { HaveOneFault }
{}

/// All bytes are the code of a text, or have one of the faults.
pub fn an_answer()
    ensures { HaveAnAnswer }
{}

/// The code of a text as bytes, `coded_of`, is its code, and each code is as long as its bits, in whole bytes.
pub fn the_code()
    ensures spelled { IsTheCode }
    ensures len { HasItsLength }
{}
