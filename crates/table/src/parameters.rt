// Document 02, orders 6, 1 and 8: parameters by their codes, which a row's kind names.
ghost use Rattle.std.specs.Prelude.{◌≡◌};
ghost use Rattle.meaning.specs.Codes.{code_of, can_ask};

use crate::kinds::Kind;

// "20 for the base envelope's own date".
pub const OWN_DATE: u32 = 0x20;

// The closing 01, which is no parameter's code.
pub const NO_PARAMETER: u32 = 0x01;

// Takes a row's kind. Answers the code of the parameter that such a row opens or holds, 20 for a date, or the closing 01 for a row that is no
// parameter's first.
pub fn code_of(kind: u32) -> u32
    ensures { result ≡ code_of kind }
{
    let Ok(known) = Kind::try_from(kind) else {
        return NO_PARAMETER;
    };
    match known {
        Kind::OwnKey => 0x00,
        Kind::ToOpens => 0x02,
        Kind::FromOpens => 0x03,
        Kind::StandardRepresentation | Kind::OwnRepresentation => 0x04,
        Kind::Comments => 0x05,
        Kind::PayloadLength => 0x06,
        Kind::PayloadEncoding => 0x07,
        Kind::EncryptedOpens => 0x08,
        Kind::ReceiverOpens => 0x09,
        Kind::ReceivedBy => 0x0a,
        Kind::BehaviourOpens => 0x0b,
        Kind::DateAbsolute | Kind::DateForward | Kind::DateBackward => OWN_DATE,
        _ => NO_PARAMETER,
    }
}

// Takes a code. Answers whether its value can be asked for: "code 02 to 0B, or 20".
pub fn can_ask(code: u32) -> bool
    ensures { result ≡ can_ask code }
{
    code == OWN_DATE || (0x02..=0x0b).contains(&code)
}
