//! Texts in quotes.

ghost use Rattle.std.specs.Prelude.{◌≡◌, ◌^◌, ◌<◌, ◌≤◌, ◌+◌, length, IfSome};
ghost use Rattle.py_lex.specs.Words as spec;

// How many bytes there are up to behind the closing quotes, `at` of which have been passed.
#[tactic(auto, unfolding(crate::specs::Words::closed))]
fn closed(quotes: &[u8], mut at: usize, mut z: &[u8]) -> Option<usize>
    requires { at + length z.now < 2 ^ 63 }
    ensures value { result ≡ spec.closed quotes.now 0 at z.entry.now }
    ensures within { IfSome result (λ end. (at ≤ end) × (end ≤ at + length z.entry.now)) }
{
    let mut is_taken = false;
    while let [b, rest @ ..] = z {
        if !is_taken && z.starts_with(quotes) {
            return Some(at + quotes.len());
        }
        if !is_taken && *b == b'\n' && quotes.len() == 1 {
            return None;
        }
        is_taken = !is_taken && *b == b'\\';
        at += 1;
        z = rest;
    }
    None
}

/// The length of the text at the front, or nothing where it isn't closed.
#[tactic(auto, unfolding(crate::specs::Words::text_len))]
pub fn text_len(z: &[u8]) -> Option<usize>
    requires { length z.now < 2 ^ 63 }
    ensures value { result ≡ spec.text_len z.now }
    ensures within { IfSome result (λ len. (1 ≤ len) × (len ≤ length z.now)) }
{
    if z.starts_with(b"'''") {
        closed(b"'''", 3, &z[3..])
    } else if z.starts_with(b"\"\"\"") {
        closed(b"\"\"\"", 3, &z[3..])
    } else if z.starts_with(b"'") {
        closed(b"'", 1, &z[1..])
    } else if z.starts_with(b"\"") {
        closed(b"\"", 1, &z[1..])
    } else {
        None
    }
}
