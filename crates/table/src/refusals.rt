// Document 01, "Answers by number": every answer but 0, by the name that the C header has for it.
ghost use Rattle.std.specs.Prelude.{◌≡◌};
ghost use Rattle.table.specs.Refusals.{answer_of};

#[derive(Clone, Copy, PartialEq, Eq)]
pub enum Refusal {
    EditionUnknown = 1,
    InputEnds = 2,
    IdentifierWrong = 3,
    LengthWrong = 4,
    EnvelopeLimit = 5,
    EnvelopeEnds = 6,
    CodeWrong = 7,
    TextWrong = 8,
    DateWrong = 9,
    NumberWrong = 10,
    LengthFormWide = 11,
    AgentLevel = 12,
    ClosedEarly = 13,
    RowsShort = 14,
    TableWrong = 15,
    OutputShort = 16,
    ParameterUnknown = 17,
    FiguresFull = 19,
}

impl Refusal {
    // Answers the number under which callers are given the refusal.
    pub fn answer(self) -> u32
        ensures { result ≡ answer_of self }
    {
        self as u32
    }
}
