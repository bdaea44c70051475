// "Editions are numbered 1 (B) and 2 (D)."
ghost use Rattle.table.specs.Told.{EditionOf};

#[derive(Clone, Copy)]
pub enum Edition {
    B,
    D,
}

// Order 10: whether the shortest length form of a block is required, or any will do.
#[derive(Clone, Copy)]
pub enum Strictness {
    Strict,
    Tolerant,
}

// What a reading is told.
#[derive(Clone, Copy)]
pub struct Told {
    pub edition: Edition,
    pub strictness: Strictness,
}

// A number that no edition has.
#[derive(Clone, Copy)]
pub struct UnknownEdition;

impl TryFrom<u32> for Edition {
    type Error = UnknownEdition;

    ghost try_from_gives = { EditionOf };

    fn try_from(number: u32) -> Result<Self, UnknownEdition> {
        match number {
            1 => Ok(Edition::B),
            2 => Ok(Edition::D),
            _ => Err(UnknownEdition),
        }
    }
}
