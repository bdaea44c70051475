// Which rows belong to a row, by kinds and levels alone, as `belongs` says it: for any rows, one by one. The passes over a whole table go by classes
// of kinds instead.
ghost use Rattle.std.specs.Prelude.{◌≡◌, ◌&&◌, ◌||◌, ℕ, ◌+◌, ◌*◌, ◌<◌, eqb, ltb};
ghost use Rattle.meaning.specs.Skips.{Rank, rank, belongs};
ghost use Rattle.skips.specs.Owners.{owns};

use table::kinds::Kind;

// What a row has among its rows: nothing; what is deeper; all of an envelope or of an agent; or one kind or two beside it.
#[derive(Clone, Copy)]
pub enum Owner {
    Nothing,
    Deeper,
    Envelope,
    Agent,
    Addresses,
    Valued,
    Encrypted,
    OwnKey,
}

// Takes a row's kind. Answers what it has among its rows.
pub fn owner_of(kind: u32) -> Owner
    ensures { (level : ℕ) (s : Rank) → belongs (rank kind level) s ≡ owns result level s }
{
    let Ok(kind) = Kind::try_from(kind) else {
        return Owner::Nothing;
    };
    match kind {
        Kind::ExtensionOpens | Kind::BaseOpens => Owner::Envelope,
        Kind::ReceivedBy
        | Kind::ToOpens
        | Kind::FromOpens
        | Kind::ReceiverOpens
        | Kind::ResolversOpen => Owner::Deeper,
        Kind::AgentName => Owner::Agent,
        Kind::AddressesOpen => Owner::Addresses,
        Kind::ExtraKey | Kind::BehaviourOpens => Owner::Valued,
        Kind::EncryptedOpens => Owner::Encrypted,
        Kind::OwnKey => Owner::OwnKey,
        _ => Owner::Nothing,
    }
}

// Takes an owner's level, and the kind and level of a row. Answers whether it is deeper, or beside the owner and of a kind above this one.
pub fn is_above(above: u32, at: u32, kind: u32, level: u32) -> bool
    ensures { result ≡ (ltb at level || eqb level at && ltb above kind) }
{
    standing(above, at) < standing(kind, level)
}

// Where a row stands, as one number: first its level decides, then its kind.
fn standing(kind: u32, level: u32) -> u64
    ensures { (result ≡ 4294967296 * level + kind) × (kind < 4294967296) }
{
    4294967296 * (level as u64) + (kind as u64)
}

// Takes an owner's level, and the kind and level of a row. Answers whether it is beside the owner and of one of two kinds.
pub fn is_beside(one: u32, other: u32, at: u32, kind: u32, level: u32) -> bool
    ensures { result ≡ (eqb level at && (eqb kind one || eqb kind other)) }
{
    level == at && (kind == one || kind == other)
}

// Takes an owner with its level, and the kind and level of a row. Answers whether the row belongs to it.
pub fn is_owned(owner: Owner, at: u32, kind: u32, level: u32) -> bool
    ensures { result ≡ owns owner at (rank kind level) }
{
    match owner {
        Owner::Nothing => false,
        Owner::Deeper => at < level,
        Owner::Envelope => is_above(Kind::BaseOpens.number(), at, kind, level),
        Owner::Agent => is_above(Kind::AgentName.number(), at, kind, level),
        Owner::Addresses => is_beside(
            Kind::Address.number(),
            Kind::Address.number(),
            at,
            kind,
            level,
        ),
        Owner::Valued => is_beside(
            Kind::AnyText.number(),
            Kind::AnyBytes.number(),
            at,
            kind,
            level,
        ),
        Owner::Encrypted => is_beside(
            Kind::EncryptedItem.number(),
            Kind::EncryptedItem.number(),
            at,
            kind,
            level,
        ),
        Owner::OwnKey => is_beside(
            Kind::OwnValue.number(),
            Kind::OwnValue.number(),
            at,
            kind,
            level,
        ),
    }
}
