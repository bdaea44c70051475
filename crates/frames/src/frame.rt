// An envelope's identifier and length: "Per envelope: 3, then 17th, then 4, limit, 2, then the inside."
ghost use Rattle.std.specs.Prelude.{◌≡◌, ◌||◌, suc, ◌+◌, ◌≤◌, ◌<◌, eqb, length};
ghost use Rattle.meaning.specs.Bytes.{high_first};
ghost use Rattle.meaning.specs.Headers.{envelope, sized};
ghost use Rattle.laws_steps.specs.From.{from};
ghost use Rattle.laws_steps.specs.Frames.{Identified};
ghost use Rattle.frames.specs.Frames.{FrameRead, HeaderFramed};

use table::answers::Fault;
use table::limits::{ENVELOPE_MOST, LONG_HEAD, SHORT_HEAD};
use table::refusals::Refusal;
use values::bytes::{four_bytes, two_bytes};

// "either a value with the place after it, or a refusal": which envelope opens, where its inside begins and its declared end; or the refusal.
#[derive(Drop)]
pub enum Frame {
    Opens {
        base: bool,
        first: usize,
        end: usize,
    },
    Refused(Fault),
}

// "4: short length 1 or 2, or long length below 65,540".
const SHORT_LEAST: usize = SHORT_HEAD;

const LONG_LEAST: usize = 65540;

// Takes the envelope at a place, of which `left` may still come. "3: identifier not FD or FE, that byte."
pub fn frame_at(s: &[u8], at: usize, left: u32) -> Frame
    requires { at ≤ length s.now }
    ensures { HeaderFramed s.now at left result }
{
    let all = s.len();
    if all <= at {
        return Frame::Refused(Refusal::InputEnds.at(at));
    }
    let b = s[at];
    if is_identifier(b) {
        return counted(s, at, left, b == 0xfe);
    }
    Frame::Refused(Refusal::IdentifierWrong.at(at))
}

// "identifier .. FD or FE".
fn is_identifier(b: u8) -> bool
    ensures { result ≡ (eqb b 0xfd || eqb b 0xfe) }
{
    (b == 0xfd) | (b == 0xfe)
}

// Takes an envelope whose identifier is known. "5: 17th envelope, identifier."
fn counted(s: &[u8], at: usize, left: u32, base: bool) -> Frame
    requires { (at < length s.now) × (Identified s.now at base) }
    ensures { HeaderFramed s.now at left result }
{
    if left == 0 {
        return Frame::Refused(Refusal::EnvelopeLimit.at(at));
    }
    measured(s, at, base)
}

// Takes an envelope that may come. "Length: two bytes, high first .. If they are zero, four more bytes, high first, hold it."
fn measured(s: &[u8], at: usize, base: bool) -> Frame
    requires { at < length s.now }
    ensures { FrameRead (λ t more. sized t base at (suc (length (from s.now (at + 1) (length s.now)))) more (high_first 2 0 (from s.now (at + 1) (length s.now)))) s.now at result }
{
    let all = s.len();
    if all - at < SHORT_HEAD {
        return Frame::Refused(Refusal::InputEnds.at(all));
    }
    let brief = two_bytes(s, at + 1);
    if brief != 0 {
        return bounded(s, at, base, SHORT_HEAD, brief, SHORT_LEAST);
    }
    if all - at < LONG_HEAD {
        return Frame::Refused(Refusal::InputEnds.at(all));
    }
    let long = four_bytes(s, at + SHORT_HEAD);
    bounded(s, at, base, LONG_HEAD, long, LONG_LEAST)
}

// Takes an envelope of n declared bytes, `head` of them identifier and length. Answers where its inside lies, or the refusal of n.
fn bounded(s: &[u8], at: usize, base: bool, head: usize, n: usize, least: usize) -> Frame
    requires { (at + head ≤ length s.now) × (3 ≤ head) × (head ≤ least) }
    ensures { FrameRead (λ t more. envelope t base least at head n (from s.now (at + head) (length s.now)) more) s.now at result }
{
    let all = s.len();
    let first = at + head;
    let size = at + 1;
    if n < least {
        return Frame::Refused(Refusal::LengthWrong.at(size));
    }
    if ENVELOPE_MOST < n {
        return Frame::Refused(Refusal::EnvelopeLimit.at(size));
    }
    if all - at < n {
        return Frame::Refused(Refusal::InputEnds.at(all));
    }
    let end = at + n;
    Frame::Opens {
        base: base,
        first: first,
        end: end,
    }
}
