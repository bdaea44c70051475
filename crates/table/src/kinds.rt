// Document 01, "The table": what a row's kind says. Nowhere else in the code does a kind stand as a number.
ghost use Rattle.std.specs.Prelude.{◌≡◌};
ghost use Rattle.table.specs.Kinds.{number_of, KindOf};

#[derive(Clone, Copy, PartialEq, Eq)]
pub enum Kind {
    ExtensionOpens = 1,
    BaseOpens = 2,
    StandardRepresentation = 3,
    OwnRepresentation = 4,
    DateAbsolute = 5,
    DateForward = 6,
    DateBackward = 7,
    ReceivedBy = 8,
    ReceivedFrom = 9,
    ReceivedId = 10,
    ReceivedVia = 11,
    ToOpens = 12,
    FromOpens = 13,
    ReceiverOpens = 14,
    AgentName = 15,
    AddressesOpen = 16,
    Address = 17,
    ResolversOpen = 18,
    ExtraKey = 19,
    AnyText = 20,
    AnyBytes = 21,
    Comments = 22,
    PayloadLength = 23,
    PayloadEncoding = 24,
    EncryptedOpens = 25,
    EncryptedItem = 26,
    OwnKey = 27,
    OwnValue = 28,
    BehaviourOpens = 29,
}

// A number that is no kind's.
#[derive(Clone, Copy)]
pub struct UnknownKind(pub u32);

impl Kind {
    // Answers the kind's number, as it stands in a row.
    pub fn number(self) -> u32
        ensures { result ≡ number_of self }
    {
        self as u32
    }
}

impl TryFrom<u32> for Kind {
    type Error = UnknownKind;

    ghost try_from_gives = { KindOf };

    fn try_from(number: u32) -> Result<Self, UnknownKind> {
        match number {
            1 => Ok(Kind::ExtensionOpens),
            2 => Ok(Kind::BaseOpens),
            3 => Ok(Kind::StandardRepresentation),
            4 => Ok(Kind::OwnRepresentation),
            5 => Ok(Kind::DateAbsolute),
            6 => Ok(Kind::DateForward),
            7 => Ok(Kind::DateBackward),
            8 => Ok(Kind::ReceivedBy),
            9 => Ok(Kind::ReceivedFrom),
            10 => Ok(Kind::ReceivedId),
            11 => Ok(Kind::ReceivedVia),
            12 => Ok(Kind::ToOpens),
            13 => Ok(Kind::FromOpens),
            14 => Ok(Kind::ReceiverOpens),
            15 => Ok(Kind::AgentName),
            16 => Ok(Kind::AddressesOpen),
            17 => Ok(Kind::Address),
            18 => Ok(Kind::ResolversOpen),
            19 => Ok(Kind::ExtraKey),
            20 => Ok(Kind::AnyText),
            21 => Ok(Kind::AnyBytes),
            22 => Ok(Kind::Comments),
            23 => Ok(Kind::PayloadLength),
            24 => Ok(Kind::PayloadEncoding),
            25 => Ok(Kind::EncryptedOpens),
            26 => Ok(Kind::EncryptedItem),
            27 => Ok(Kind::OwnKey),
            28 => Ok(Kind::OwnValue),
            29 => Ok(Kind::BehaviourOpens),
            _ => Err(UnknownKind(number)),
        }
    }
}
