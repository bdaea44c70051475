// One parameter, by what its first row is: each lays what begins with one kind of row, or with kinds that begin alike.
// Each answers the row ahead and the place behind the parameter, or None: it does not begin here, and nothing was laid.
ghost use Rattle.std.specs.Prelude.{◌≡◌, [], ◌∷◌, ◌≤◌, false, eqb, Ok};
ghost use Rattle.meaning.specs.Bytes.{line};
ghost use Rattle.meaning.specs.Kinds.{received_by, payload_length, own_key, behaviour_opens, agent_name};
ghost use Rattle.meaning.specs.Editions.{parameters, own_text, behaviour_value, outer, opens, on◌▸◌▸◌▸◌};
ghost use Rattle.meaning.specs.Told;
ghost use Rattle.meaning.specs.Told.{B};
ghost use Rattle.table.specs.Kinds.{number_of};
ghost use Rattle.table.specs.Told.{edition_of};
ghost use Rattle.values.specs.Stages.{rule_of};
ghost use Rattle.write_rows.specs.Stages.{StageReady, TakeReady, cells_from};
ghost use Rattle.write_inside.specs.Parameters.{FoundAt, ParameterAt, Names, naming_code, naming_move, Represents, KindAhead, after_one, after_advance, encrypted_in, InParameters};

use table::kinds::Kind;
use table::told::Edition;
use values::text::Rule;
use write_objects::agents::agents;
use write_objects::received::received;
use write_rows::advance::{Misfit, Onto, needed};
use write_rows::ahead::{number, opened, text};
use write_rows::any::any;
use write_rows::lay::put;
use write_rows::lent::Table;
use write_rows::representation::standard;
use write_rows::texts::texts;

// Takes what trying row i answered, which may be a parameter by itself. Answers the way on behind it, or that none begins here.
fn single(tried: Option<usize>, i: usize) -> Option<Onto>
    requires { i ≤ 4611686018427387903 }
    ensures { result ≡ after_one i tried }
{
    let at = tried?;
    Some(Onto { row: i + 1, at })
}

// Takes what laying the rest of a parameter answered, whose first row is laid. Answers the same of the parameter.
fn begun(rest: Result<Onto, Misfit>) -> Result<Option<Onto>, Misfit>
    ensures { result ≡ after_advance rest }
{
    Ok(Some(rest?))
}

// "00 own key text, value text": lays the parameter that row i begins; its key is a line, its value a note.
// None begins there if row i is no such key. Refuses the next row if that is no value.
pub fn own_parameter(
    table: &Table,
    i: usize,
    output: &mut [u8],
    at: usize,
) -> Result<Option<Onto>, Misfit>
    requires { StageReady table.now i output.old at }
    ensures { (edition : Told.Edition) → ParameterAt edition (on 0x00 ▸ own_key ▸ Rattle.meaning.specs.Editions.text line ▸ outer own_text ∷ []) table.now i output.old at result output.new }
{
    let t = text(
        table,
        i,
        Kind::OwnKey as u32,
        Rule::Line,
        0,
        Some(0x00),
        output,
        at,
    );
    let Some(p) = t else {
        return Ok(None);
    };
    let k = i + 1;
    let value = text(
        table,
        k,
        Kind::OwnValue as u32,
        Rule::Note,
        0,
        None,
        output,
        p,
    );
    begun(needed(value, k))
}

// "02 `to`, ..; 03 `from`, ..; 09 intended receiver, ..". Takes the kind that opens such a parameter. Answers its code.
fn naming_code(kind: Kind) -> u8
    ensures { result ≡ naming_code (number_of kind) }
{
    match kind {
        Kind::ToOpens => 0x02,
        Kind::FromOpens => 0x03,
        _ => 0x09,
    }
}

// "02 `to`, agent list; 03 `from`, one agent; .. 09 intended receiver, agent list": lays the parameter of this kind, naming agents, that row i opens.
// None begins there if row i does not open it. Refuses what its agents do.
pub fn naming(
    table: &Table,
    i: usize,
    kind: Kind,
    edition: Edition,
    output: &mut [u8],
    at: usize,
) -> Result<Option<Onto>, Misfit>
    requires { StageReady table.now i output.old at × Names (number_of kind) }
    ensures { ParameterAt (edition_of edition) (naming_move (number_of kind) ∷ []) table.now i output.old at result output.new }
{
    let code = Some(naming_code(kind));
    let t = opened(table, i, kind.number(), 0, code, output, at);
    let Some(p) = t else {
        return Ok(None);
    };
    let k = i + 1;
    let one = kind == Kind::FromOpens;
    begun(agents(table, k, one, edition, output, p))
}

// "04 representation": lays the code and row i, which is of this kind, a representation's. Refuses row i if it is none.
pub fn represented(
    table: &Table,
    i: usize,
    kind: Kind,
    output: &mut [u8],
    at: usize,
) -> Result<Option<Onto>, Misfit>
    requires { StageReady table.now i output.old at × Represents (number_of kind) × KindAhead (number_of kind) (cells_from table.now i) }
    ensures { (edition : Told.Edition) → FoundAt edition table.now i output.old at result output.new }
{
    let p = put(output, at, 0x04);
    if kind == Kind::StandardRepresentation {
        return begun(needed(standard(table, i, output, p), i));
    }
    let own = text(
        table,
        i,
        Kind::OwnRepresentation as u32,
        Rule::Line,
        0,
        Some(0x00),
        output,
        p,
    );
    begun(needed(own, i))
}

// "05 comments text", "07 payload encoding text": lays the parameter of this kind that row i is, a text by this rule behind this code.
// None begins there if row i is no such text.
pub fn one_text(
    table: &Table,
    i: usize,
    kind: Kind,
    rule: Rule,
    code: u8,
    output: &mut [u8],
    at: usize,
) -> Option<Onto>
    requires { TakeReady table.now i (number_of kind) output.old at }
    ensures { (edition : Told.Edition) → InParameters edition (on code ▸ number_of kind ▸ Rattle.meaning.specs.Editions.text (rule_of rule) ▸ outer parameters) → eqb (number_of kind) agent_name ≡ false →
        ParameterAt edition (on code ▸ number_of kind ▸ Rattle.meaning.specs.Editions.text (rule_of rule) ▸ outer parameters ∷ []) table.now i output.old at (Ok result) output.new }
{
    let t = text(table, i, kind.number(), rule, 0, Some(code), output, at);
    single(t, i)
}

// "06 payload length": lays the parameter that row i is. None begins there if row i is no such number.
pub fn payload_length(table: &Table, i: usize, output: &mut [u8], at: usize) -> Option<Onto>
    requires { StageReady table.now i output.old at }
    ensures { (edition : Told.Edition) → ParameterAt edition (on 0x06 ▸ payload_length ▸ Rattle.meaning.specs.Editions.number ▸ outer parameters ∷ []) table.now i output.old at (Ok result) output.new }
{
    let t = number(table, i, output, at);
    single(t, i)
}

// "08 encrypted, texts then 01 (B only)": lays the parameter that row i opens in B. None begins there if row i does not open it.
fn encrypted_in_b(table: &Table, i: usize, output: &mut [u8], at: usize) -> Option<Onto>
    requires { StageReady table.now i output.old at }
    ensures { ParameterAt B (encrypted_in B) table.now i output.old at (Ok result) output.new }
{
    let t = opened(
        table,
        i,
        Kind::EncryptedOpens as u32,
        0,
        Some(0x08),
        output,
        at,
    );
    let Some(p) = t else {
        return None;
    };
    Some(texts(table, i + 1, Kind::EncryptedItem as u32, 0, output, p))
}

// The same by edition: in D none begins there.
pub fn encrypted(
    table: &Table,
    i: usize,
    edition: Edition,
    output: &mut [u8],
    at: usize,
) -> Option<Onto>
    requires { StageReady table.now i output.old at }
    ensures { ParameterAt (edition_of edition) (encrypted_in (edition_of edition)) table.now i output.old at (Ok result) output.new }
{
    match edition {
        Edition::B => encrypted_in_b(table, i, output, at),
        Edition::D => None,
    }
}

// "0A received object": lays the code and the object from row i on, whose kind is a `by`'s. Refuses what the object does.
pub fn received_in(
    table: &Table,
    i: usize,
    edition: Edition,
    output: &mut [u8],
    at: usize,
) -> Result<Option<Onto>, Misfit>
    requires { StageReady table.now i output.old at × KindAhead received_by (cells_from table.now i) }
    ensures { FoundAt (edition_of edition) table.now i output.old at result output.new }
{
    let p = put(output, at, 0x0a);
    begun(received(table, i, edition, output, p))
}

// "0B transport behaviour, an any-value": lays the parameter that row i opens. None begins there if row i does not open it.
// Refuses the next row if that is no any-value.
pub fn behaviour(
    table: &Table,
    i: usize,
    output: &mut [u8],
    at: usize,
) -> Result<Option<Onto>, Misfit>
    requires { StageReady table.now i output.old at }
    ensures { (edition : Told.Edition) → ParameterAt edition (on 0x0b ▸ behaviour_opens ▸ opens ▸ outer behaviour_value ∷ []) table.now i output.old at result output.new }
{
    let t = opened(
        table,
        i,
        Kind::BehaviourOpens as u32,
        0,
        Some(0x0b),
        output,
        at,
    );
    let Some(p) = t else {
        return Ok(None);
    };
    let k = i + 1;
    begun(needed(any(table, k, 0, output, p), k))
}
