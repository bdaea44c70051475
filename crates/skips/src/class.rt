// What a row's kind is to a pass over a whole table, from the last row to the first: the bit of the parameter that such a row opens or holds, and above
// the bits how its own rows are found.
ghost use Rattle.std.specs.Prelude.{◌≡◌, ◌≤◌};
ghost use Rattle.laws_tables.specs.Neighbours.{kind_most};
ghost use Rattle.skips.specs.Classes.{class_of, ClassesAre};
ghost use Rattle.skips.specs.Ways.{WayIs};

// How a row's own rows are found, where a pass comes to it from behind: it has none then; all deeper rows are its own; it is an agent's; it follows
// another itself, as an address, an item of an encrypted list or a value behind its key does; or it is an envelope's own.
#[derive(Clone, Copy)]
pub enum Way {
    Alone,
    Deeper,
    Agent,
    Follows,
    Envelope,
}

// The bits of a word are below this one.
pub const BITS: u32 = 0x1000;

// The class of each kind, from 0 on: how its rows are found, and bit n of the parameter with code n.
const CLASSES: [u16; 30] = [
    0x0000, // no kind
    0x4000, // extension
    0x4000, // base
    0x0010, // standard representation
    0x0010, // own representation
    0x0000, // date
    0x0000, // date forward
    0x0000, // date backward
    0x1400, // received by
    0x0000, // received from
    0x0000, // received id
    0x0000, // received via
    0x1004, // to
    0x1008, // from
    0x1200, // intended receiver
    0x2000, // agent name
    0x0000, // addresses
    0x3000, // address
    0x1000, // resolvers
    0x0000, // extra key
    0x3000, // any text
    0x3000, // any bytes
    0x0020, // comments
    0x0040, // payload length
    0x0080, // payload encoding
    0x0100, // encrypted
    0x3000, // encrypted item
    0x0001, // own key
    0x3000, // own value
    0x0800, // transport behaviour
];

// The classes of all kinds, for a pass to lay down once.
#[derive(Drop)]
pub struct Classes {
    numbers: [u16; 30],
    pub ghost are: { ClassesAre numbers },
}

impl Classes {
    // Answers all classes.
    pub fn new() -> Self {
        Classes { numbers: CLASSES }
    }

    // Takes a kind's number. Answers its class.
    pub fn of(&self, kind: u32) -> u32
        requires { kind ≤ kind_most }
        ensures { result ≡ class_of kind }
    {
        let k = kind as usize;
        u32::from(self.numbers[k])
    }
}

// Takes a class. Answers how the rows of its kinds are found. By tests in this order: most rows need one.
pub fn way_of(class: u32) -> Way
    ensures { WayIs class result }
{
    if class < 0x1000 {
        return Way::Alone;
    }
    if class < 0x2000 {
        return Way::Deeper;
    }
    if class < 0x3000 {
        return Way::Agent;
    }
    if class < 0x4000 {
        return Way::Follows;
    }
    Way::Envelope
}
