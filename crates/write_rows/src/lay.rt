// Bytes laid into the part that is lent, or counted where it has no room: so the same functions measure and write.
// The count stops at an envelope's limit: no sum wraps, whatever the rows view.
// It goes on past what `output` has room for, so `at` is no place in a slice, and the two are passed side by side.
ghost use Rattle.std.specs.Prelude.{◌≡◌, ◌-◌, ◌≤◌, length, take};
ghost use Rattle.std.proofs.lemmas.List.Edits.{sets};
ghost use Rattle.table.specs.Codes.{code_number};
ghost use Rattle.write_rows.specs.Laying.{one, Laid, Layable, lead_of, fitting_of};

use table::limits::ENVELOPE_MOST;

// Lays the byte `b` at `at`, if `output` has that place. Answers the count behind it; no other byte changes.
// By its index: what a slice's `get_mut` promises says nothing of the bytes behind a write, so the form by it is not proved.
pub fn put(output: &mut [u8], at: usize, b: u8) -> usize
    requires { Layable output.old at }
    ensures { Laid output.old at (one b) output.new result }
{
    if at < output.len() {
        output[at] = b;
        return at + 1;
    }
    ENVELOPE_MOST.min(at + 1)
}

// Lays as many of `bytes` from `at` on as `output` has room for. Answers the count behind all of them; no other byte changes.
pub fn copy(bytes: &[u8], output: &mut [u8], at: usize) -> usize
    requires { Layable output.old at }
    ensures { Laid output.old at bytes.now output.new result }
{
    let many = bytes.len();
    let n = fitting(many, at, output.len());
    lay(bytes, n, output, at);
    at + many.min(ENVELOPE_MOST - at)
}

// Takes how many bytes there are, and a place in a part of length `room`. Answers how many of them have room from there on.
fn fitting(many: usize, at: usize, room: usize) -> usize
    ensures { result ≡ fitting_of many at room }
{
    many.min(room.saturating_sub(at))
}

// Lays the first n of `bytes` from `at` on, where they have room: by their index and without a branch, so that it goes by vectors.
fn lay(bytes: &[u8], n: usize, output: &mut [u8], at: usize)
    requires { (n ≤ length bytes.now) × (n ≤ length output.old - at) }
    ensures { output.new ≡ sets output.old at (take n bytes.now) }
{
    for i in 0..n {
        output[at + i] = bytes[i];
    }
}

// Lays a move's code. Answers the count behind it; where the move has no code, nothing is laid or counted.
pub fn put_code(code: Option<u8>, output: &mut [u8], at: usize) -> usize
    requires { Layable output.old at }
    ensures { Laid output.old at (lead_of (code_number code)) output.new result }
{
    match code {
        None => at,
        Some(b) => put(output, at, b),
    }
}
