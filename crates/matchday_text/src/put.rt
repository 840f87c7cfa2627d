// Bytes and numbers put into a slice from a place on, as far as it has room; the answer is the place after them.
ghost use Rattle.std.specs.Prelude.{[], ◌∷◌};
ghost use Rattle.matchday_text.specs.Text.{decimal, followed};
ghost use Rattle.matchday_text.specs.Put.{Put, Room};

// One byte; a place past the end of the slice is counted and not written.
#[tactic(auto, using(crate::proofs::PutLaws::put_inside, crate::proofs::PutLaws::put_outside))]
fn put(text: &mut [u8], at: usize, byte: u8) -> usize
    requires { Room at (byte ∷ []) }
    ensures put { Put text.old at (byte ∷ []) text.new result }
{
    if at < text.len() {
        text[at] = byte;
    }
    at + 1
}

#[tactic(auto, using(crate::proofs::PutLaws::put_none, crate::proofs::PutLaws::put_byte_room))]
pub(crate) fn put_bytes(text: &mut [u8], at: usize, bytes: &[u8]) -> usize
    requires { Room at bytes.now }
    ensures put { let text₀ = text.old in let bytes = bytes.entry.now in Put text₀ at bytes text.new result }
{
    let mut next = at;
    for byte in bytes {
        next = put(text, next, *byte);
    }
    next
}

// The digits of a tenth of the number, then its last digit. By hand: `write!` may fail, and then promises nothing of the text.
#[tactic(auto, using(crate::proofs::PutLaws::decimal_digit))]
fn put_decimal(text: &mut [u8], at: usize, x: usize) -> usize
    requires { Room at (decimal x) }
    ensures put { Put text.old at (decimal x) text.new result }
{
    if x < 10 {
        return put(text, at, b'0' + x as u8);
    }
    let next = put_decimal(text, at, x / 10);
    put(text, next, b'0' + (x % 10) as u8)
}

// A number, and the byte that follows it.
pub(crate) fn put_number(text: &mut [u8], at: usize, x: usize, after: u8) -> usize
    requires { Room at (followed x after) }
    ensures put { Put text.old at (followed x after) text.new result }
{
    let next = put_decimal(text, at, x);
    put(text, next, after)
}
