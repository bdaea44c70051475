// Whether lent numbers are figures, and of how many messages.
ghost use Rattle.std.specs.Prelude.{◌≡◌, ◌+◌, ◌≤◌, length, drop, get_or};
ghost use Rattle.meaning.specs.Figures.{sum_of, edition_fits, messages_most, edition_width};
ghost use Rattle.figures.specs.Stages.{capped, judged};

// The numbers lent: fifteen of each edition, and the unknown. A slice, as the C interface lends them, and no struct of its parts: what is entered may
// make them figures of one message too many, so that nothing holds of them from call to call.
pub const FIGURES: usize = 31;

// An edition's: accepted, refused by 2 to 13, envelopes, header bytes.
pub const EDITION_NUMBERS: usize = 15;

pub const ENVELOPES_AT: usize = 13;

pub const BYTES_AT: usize = 14;

pub const UNKNOWN_AT: usize = 30;

// "1,000,000 messages of any edition".
pub const MESSAGES_MOST: u64 = 1000000;

// Takes lent numbers. Answers of how many messages they are the figures, if they are any.
pub fn messages(numbers: &[u64]) -> Option<u64>
    ensures { result ≡ judged numbers.now }
{
    if numbers.len() != FIGURES {
        return None;
    }
    let b = summed(&numbers[..ENVELOPES_AT], 0)?;
    let d = summed(&numbers[EDITION_NUMBERS..EDITION_NUMBERS + ENVELOPES_AT], b)?;
    let all = summed(&numbers[UNKNOWN_AT..FIGURES], d)?;
    if edition_fits(numbers, 0) && edition_fits(numbers, EDITION_NUMBERS) {
        return Some(all);
    }
    None
}

// Takes the messages so far, and numbers. Answers the sum of all, if it is not above 1,000,000.
fn summed(numbers: &[u64], before: u64) -> Option<u64>
    requires { before ≤ messages_most }
    ensures { result ≡ capped (before + sum_of numbers.now) }
{
    let mut sum = before;
    for n in numbers {
        if MESSAGES_MOST - sum < *n {
            return None;
        }
        sum += *n;
    }
    Some(sum)
}

// Takes figures of at most 1,000,000 messages and where an edition's begin. Answers whether it has no more envelopes and bytes than so many accepted messages can have.
fn edition_fits(numbers: &[u64], first: usize) -> bool
    requires { (first + edition_width ≤ length numbers.now) × (get_or numbers.now first 0 ≤ messages_most) }
    ensures { result ≡ edition_fits (drop first numbers.now) }
{
    let accepted = numbers[first];
    let envelopes = numbers[first + ENVELOPES_AT];
    let bytes = numbers[first + BYTES_AT];
    (envelopes <= 16 * accepted) & (bytes <= 16777216 * accepted)
}
