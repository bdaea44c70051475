// The words of the table: rooms, forms of values, where moves lead, and a move.
ghost use Rattle.std.specs.Prelude.{◌≡◌};
ghost use Rattle.meaning.specs.Reading.{strange, is_closed};
ghost use Rattle.table.specs.Refusals.{answer_of};
ghost use Rattle.moves.specs.Words.{room_of};

use table::kinds::Kind;
use table::refusals::Refusal;
use values::text::Rule;

// A place in the grammar.
#[derive(Clone, Copy, PartialEq, Eq)]
pub enum Room {
    ReceivedBegins,
    HeadRepresentation,
    HeadDate,
    Parameters,
    OwnText,
    ParameterRepresentation,
    BehaviourValue,
    EncryptedTexts,
    ReceivedDate,
    AfterDate,
    AfterFrom,
    AfterId,
    AfterVia,
    ReceivedExtra,
    AgentList,
    OneAgent,
    AfterName,
    AddressTexts,
    AfterAddresses,
    AfterResolvers,
    AgentExtra,
    Closed,
}

// How a move's value stands behind its code: a text by its rule; a date, absolute or relative, with a designator or without; a number; bytes behind a
// length of one, two or four; the code itself; nothing.
#[derive(Clone, Copy)]
pub enum Form {
    Text(Rule),
    Date { absolute: bool, designated: bool },
    Number,
    OneByte,
    TwoBytes,
    FourBytes,
    Itself,
    Opens,
}

// Where a move leads: to a room at envelope level; inside a received object or a parameter's list; to the one agent of `from`; to a room at the same
// level; into resolvers; to where the list or the agent that ends here stood.
#[derive(Clone, Copy)]
pub enum Next {
    Outer(Room),
    Inner(Room),
    InnerOne,
    Stay(Room),
    Deeper,
    ListEnds,
    AgentEnds,
}

// A move at a byte, and where it leads. The byte is its code, before a value that has a row, by its kind and its form; or its code, with no row; or no
// code but the first byte of a text. A row's kind is a Kind, or whatever else says one to the caller of `texts`.
#[derive(Clone, Copy)]
pub enum Move<K = Kind> {
    Coded(K, Form, Next),
    Quiet(Next),
    Uncoded(K, Rule, Next),
}

impl Move {
    // A line behind its code.
    pub fn line(kind: Kind, next: Next) -> Move
        ensures { result ≡ Move.Coded kind (Form.Text Rule.Line) next }
    {
        Move::Coded(kind, Form::Text(Rule::Line), next)
    }

    // A note behind its code.
    pub fn note(kind: Kind, next: Next) -> Move
        ensures { result ≡ Move.Coded kind (Form.Text Rule.Note) next }
    {
        Move::Coded(kind, Form::Text(Rule::Note), next)
    }

    // A row that opens what its code begins.
    pub fn opens(kind: Kind, next: Next) -> Move
        ensures { result ≡ Move.Coded kind Form.Opens next }
    {
        Move::Coded(kind, Form::Opens, next)
    }
}

impl Room {
    // Answers the refusal of a byte that is in none of the room's moves: "7: code not allowed here"; "9: date code .. wrong".
    pub fn strange(self) -> Refusal
        ensures { answer_of result ≡ strange (room_of self) }
    {
        match self {
            Room::HeadDate | Room::ReceivedDate => Refusal::DateWrong,
            _ => Refusal::CodeWrong,
        }
    }

    // Answers whether the room is the one behind an envelope's closing 01.
    pub fn is_closed(self) -> bool
        ensures { result ≡ is_closed (room_of self) }
    {
        self == Room::Closed
    }
}
