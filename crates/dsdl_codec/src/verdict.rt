//! A term and a flag: the bytes of both answers of a cluster.

ghost use Rattle.std.specs.Prelude.{◌≡◌, Some, IfSome, Bool, ℕ};
ghost use Rattle.arrayvec.specs.ArrayVec.{array_vec_len};
ghost use Rattle.dsdl_codec.specs.Verdict.{SpellsVerdict, verdict_bytes, verdict_of};

use crate::payload::{Payload, append};

/// The term and the flag of 5 bytes.
pub fn read(payload: &[u8]) -> Option<(u32, bool)>
    ensures value { result ≡ verdict_of payload.now }
    ensures found { IfSome result (λ verdict. SpellsVerdict verdict.0 verdict.1 payload.now) }
    ensures only { (term : ℕ) (flag : Bool) → SpellsVerdict term flag payload.now →
        result ≡ Some (term, flag) }
{
    let [a, b, c, d, state] = payload else {
        return None;
    };
    Some((u32::from_le_bytes([*a, *b, *c, *d]), *state >= 128))
}

/// The 5 bytes, with padding 0.
pub fn write(term: u32, flag: bool) -> Payload
    ensures bytes { result.items ≡ verdict_bytes term flag 0 }
    ensures spelled { SpellsVerdict term flag result.items }
    ensures length { array_vec_len result ≡ 5 }
{
    let mut payload = Payload::new();
    append(&mut payload, &term.to_le_bytes());
    payload.push(if flag { 128 } else { 0 });
    payload
}
