ghost use Rattle.std.specs.Prelude.{◌≡◌, ◌<◌, ◌≤◌, ◌^◌, ◌∷◌, [], ℕ, Some, IfSome, IsNone, codes, decimal};
ghost use Rattle.arrayvec.specs.ArrayVec.{ArrayVec as Items};
ghost use Rattle.hex.specs.Hex.{IsBytes};
ghost use Rattle.can_frame.specs.declared.frame.Frame.{Frame as FrameValue};
ghost use Rattle.outside.specs.declared.pattern.Pattern.{Pattern as PatternValue};
ghost use Rattle.bus_rows.specs.declared.row.Row.{Row as RowValue};
ghost use Rattle.replay_text.specs.Schedule.{Reads, ReadsWords, IsOfAllocatee, IsOfCluster, IsPattern, IsRepeated, SpellsPattern, last_moment};
ghost use Rattle.replay_text.specs.Words.{IsHex, identifier_bytes, words};

use crate::laws::a_line_has_one_row;
use crate::word::{
    front_number, last_number, one_word, read_bytes, read_identifier, read_uid, split_word,
    two_words,
};
use bus_rows::Row;
use can_frame::Frame;
use can_frame::laws::frames_are_their_parts;
use outside::Pattern;

/// The last moment, in milliseconds.
const LAST_MOMENT: u64 = 1_000_000_000_000_000;

/// The highest node ID that an allocatee may prefer.
const LAST_PREFERENCE: u64 = 127;

/// The highest number of a disk call.
const LAST_CALL: u64 = 1_000_000;

/// The highest number of 8 bits.
const MOST_OF_8_BITS: u64 = 255;

/// The highest number of 32 bits.
const MOST_OF_32_BITS: u64 = 4_294_967_295;

/// The row that a line reads as, without its line feed; `None` where it reads as none.
pub fn read_row(line: &[u8]) -> Option<Row>
    ensures found { IfSome result (λ row. Reads row line.now) }
    ensures none { IsNone result → (row : RowValue) → Reads row line.now → ⊥ }
    ensures only { (row : RowValue) → Reads row line.now → result ≡ Some row }
{
    a_line_has_one_row();
    let (name, fields) = split_word(line)?;
    // The names of rows of allocatees begin with an a, and no other name does.
    if name.first() == Some(&b'a') {
        read_allocatee_row(name, fields)
    } else if name == b"copen".as_slice() {
        read_copen(fields)
    } else {
        read_cluster_row(name, fields)
    }
}

/// A row of a member, but for `copen`, or a frame from outside.
fn read_cluster_row(name: &[u8], fields: &[u8]) -> Option<Row>
    ensures found { IfSome result (λ row. ReadsWords row (name.now ∷ words fields.now)) }
    ensures only { (row : RowValue) → IsOfCluster row → ReadsWords row (name.now ∷ words fields.now) →
        result ≡ Some row }
{
    match name {
        b"open" => read_open(fields),
        b"tick" => read_tick(fields),
        b"rx" => read_rx(fields),
        b"send" => read_send(fields),
        b"ext" => read_ext(fields),
        b"crash" => read_crash(fields),
        b"fault" => read_fault(fields),
        _ => None,
    }
}

fn read_allocatee_row(name: &[u8], fields: &[u8]) -> Option<Row>
    ensures found { IfSome result (λ row. ReadsWords row (name.now ∷ words fields.now)) }
    ensures only { (row : RowValue) → IsOfAllocatee row → ReadsWords row (name.now ∷ words fields.now) →
        result ≡ Some row }
{
    match name {
        b"aopen" => read_aopen(fields),
        b"atick" => read_atick(fields),
        b"arx" => read_arx(fields),
        b"asend" => read_asend(fields),
        b"aend" => read_aend(fields),
        _ => None,
    }
}

fn read_open(fields: &[u8]) -> Option<Row>
    ensures found { IfSome result (λ row. ReadsWords row (codes "open" ∷ words fields.now)) }
    ensures only { (row : RowValue) → ReadsWords row (codes "open" ∷ words fields.now) →
        result ≡ Some row }
{
    let (n, ms, word) = read_turn(fields)?;
    Some(Row::Open {
        n,
        told: false,
        ms,
        word,
    })
}

fn read_copen(fields: &[u8]) -> Option<Row>
    ensures found { IfSome result (λ row. ReadsWords row (codes "copen" ∷ words fields.now)) }
    ensures only { (row : RowValue) → ReadsWords row (codes "copen" ∷ words fields.now) →
        result ≡ Some row }
{
    let (n, ms, word) = read_turn(fields)?;
    Some(Row::Open {
        n,
        told: true,
        ms,
        word,
    })
}

fn read_tick(fields: &[u8]) -> Option<Row>
    ensures found { IfSome result (λ row. ReadsWords row (codes "tick" ∷ words fields.now)) }
    ensures only { (row : RowValue) → ReadsWords row (codes "tick" ∷ words fields.now) →
        result ≡ Some row }
{
    let (n, ms, word) = read_turn(fields)?;
    Some(Row::Tick { n, ms, word })
}

/// The fields of `open`, `copen` and `tick`: a node, a moment and a random word.
fn read_turn(fields: &[u8]) -> Option<(u8, u64, u32)>
    ensures found { IfSome result (λ turn. (turn.1 ≤ last_moment)
        × (words fields.now ≡ decimal turn.0 ∷ decimal turn.1 ∷ decimal turn.2 ∷ [])) }
    ensures only { (n ms word : ℕ) → n < 256 → ms ≤ last_moment → word < 2 ^ 32
        → words fields.now ≡ decimal n ∷ decimal ms ∷ decimal word ∷ [] →
        result ≡ Some (n, ms, word) }
{
    let (n, rest) = front_number(fields, MOST_OF_8_BITS)?;
    let (ms, word) = read_moment(rest)?;
    Some((n as u8, ms, word))
}

/// A moment and a random word, which are the last fields of a row.
fn read_moment(fields: &[u8]) -> Option<(u64, u32)>
    ensures found { IfSome result (λ moment. (moment.0 ≤ last_moment)
        × (words fields.now ≡ decimal moment.0 ∷ decimal moment.1 ∷ [])) }
    ensures only { (ms word : ℕ) → ms ≤ last_moment → word < 2 ^ 32
        → words fields.now ≡ decimal ms ∷ decimal word ∷ [] →
        result ≡ Some (ms, word) }
{
    let (ms, rest) = front_number(fields, LAST_MOMENT)?;
    let word = last_number(rest, MOST_OF_32_BITS)?;
    Some((ms, word as u32))
}

fn read_rx(fields: &[u8]) -> Option<Row>
    ensures found { IfSome result (λ row. ReadsWords row (codes "rx" ∷ words fields.now)) }
    ensures only { (row : RowValue) → ReadsWords row (codes "rx" ∷ words fields.now) →
        result ≡ Some row }
{
    let (n, rest) = front_number(fields, MOST_OF_8_BITS)?;
    let (k, rest) = front_number(rest, MOST_OF_32_BITS)?;
    let ms = last_number(rest, LAST_MOMENT)?;
    Some(Row::Rx {
        n: n as u8,
        k: k as u32,
        ms,
    })
}

fn read_send(fields: &[u8]) -> Option<Row>
    ensures found { IfSome result (λ row. ReadsWords row (codes "send" ∷ words fields.now)) }
    ensures only { (row : RowValue) → ReadsWords row (codes "send" ∷ words fields.now) →
        result ≡ Some row }
{
    let n = last_number(fields, MOST_OF_8_BITS)?;
    Some(Row::Send { n: n as u8 })
}

fn read_ext(fields: &[u8]) -> Option<Row>
    ensures found { IfSome result (λ row. ReadsWords row (codes "ext" ∷ words fields.now)) }
    ensures only { (row : RowValue) → ReadsWords row (codes "ext" ∷ words fields.now) →
        result ≡ Some row }
{
    let (id, bytes) = two_words(fields)?;
    let frame = read_frame(id, bytes)?;
    Some(Row::Ext { frame })
}

/// The frame of the digits of its identifier and those of its bytes.
pub fn read_frame(id: &[u8], bytes: &[u8]) -> Option<Frame>
    ensures found { IfSome result (λ frame. IsBytes frame.bytes.items
        × IsHex (identifier_bytes frame.id) id.now × IsHex frame.bytes.items bytes.now) }
    ensures only { (frame : FrameValue) → IsHex (identifier_bytes frame.id) id.now →
        IsHex frame.bytes.items bytes.now → result ≡ Some frame }
{
    frames_are_their_parts();
    let id = read_identifier(id)?;
    let bytes = read_bytes::<8>(bytes)?;
    match Frame::from_parts(id, &bytes) {
        Ok(frame) => Some(frame),
        Err(_) => None,
    }
}

fn read_crash(fields: &[u8]) -> Option<Row>
    ensures found { IfSome result (λ row. ReadsWords row (codes "crash" ∷ words fields.now)) }
    ensures only { (row : RowValue) → ReadsWords row (codes "crash" ∷ words fields.now) →
        result ≡ Some row }
{
    let (n, rest) = front_number(fields, MOST_OF_8_BITS)?;
    let (calls, rest) = front_number(rest, LAST_CALL)?;
    let pattern = read_pattern(one_word(rest)?)?;
    Some(Row::Crash {
        n: n as u8,
        calls: calls as u32,
        pattern,
    })
}

fn read_pattern(word: &[u8]) -> Option<Pattern>
    ensures found { IfSome result (λ pattern. IsPattern pattern × SpellsPattern pattern word.now) }
    ensures only { (pattern : PatternValue) → IsPattern pattern → SpellsPattern pattern word.now →
        result ≡ Some pattern }
{
    match word {
        b"old" => Some(Pattern::Old),
        b"new" => Some(Pattern::New),
        _ => read_repeated(word),
    }
}

fn read_repeated(word: &[u8]) -> Option<Pattern>
    ensures found { IfSome result (λ pattern. IsPattern pattern × SpellsPattern pattern word.now) }
    ensures only { (bytes : Items ℕ) → IsRepeated bytes.items → IsHex bytes.items word.now →
        result ≡ Some (Pattern.Bytes bytes) }
{
    let bytes = read_bytes::<16>(word)?;
    if bytes.is_empty() {
        return None;
    }
    Some(Pattern::Bytes(bytes))
}

fn read_fault(fields: &[u8]) -> Option<Row>
    ensures found { IfSome result (λ row. ReadsWords row (codes "fault" ∷ words fields.now)) }
    ensures only { (row : RowValue) → ReadsWords row (codes "fault" ∷ words fields.now) →
        result ≡ Some row }
{
    let (n, rest) = front_number(fields, MOST_OF_8_BITS)?;
    let call = last_number(rest, LAST_CALL)?;
    if call == 0 {
        return None;
    }
    Some(Row::Fault {
        n: n as u8,
        call: call as u32,
    })
}

fn read_aopen(fields: &[u8]) -> Option<Row>
    ensures found { IfSome result (λ row. ReadsWords row (codes "aopen" ∷ words fields.now)) }
    ensures only { (row : RowValue) → ReadsWords row (codes "aopen" ∷ words fields.now) →
        result ≡ Some row }
{
    let (a, rest) = front_number(fields, MOST_OF_8_BITS)?;
    let (uid, rest) = split_word(rest)?;
    let uid = read_uid(uid)?;
    let (pref, rest) = front_number(rest, LAST_PREFERENCE)?;
    let (ms, word) = read_moment(rest)?;
    Some(Row::AOpen {
        a: a as u8,
        uid,
        pref: pref as u8,
        ms,
        word,
    })
}

fn read_atick(fields: &[u8]) -> Option<Row>
    ensures found { IfSome result (λ row. ReadsWords row (codes "atick" ∷ words fields.now)) }
    ensures only { (row : RowValue) → ReadsWords row (codes "atick" ∷ words fields.now) →
        result ≡ Some row }
{
    let (a, ms, word) = read_turn(fields)?;
    Some(Row::ATick { a, ms, word })
}

fn read_arx(fields: &[u8]) -> Option<Row>
    ensures found { IfSome result (λ row. ReadsWords row (codes "arx" ∷ words fields.now)) }
    ensures only { (row : RowValue) → ReadsWords row (codes "arx" ∷ words fields.now) →
        result ≡ Some row }
{
    let (a, rest) = front_number(fields, MOST_OF_8_BITS)?;
    let (k, rest) = front_number(rest, MOST_OF_32_BITS)?;
    let (ms, word) = read_moment(rest)?;
    Some(Row::ARx {
        a: a as u8,
        k: k as u32,
        ms,
        word,
    })
}

fn read_asend(fields: &[u8]) -> Option<Row>
    ensures found { IfSome result (λ row. ReadsWords row (codes "asend" ∷ words fields.now)) }
    ensures only { (row : RowValue) → ReadsWords row (codes "asend" ∷ words fields.now) →
        result ≡ Some row }
{
    let a = last_number(fields, MOST_OF_8_BITS)?;
    Some(Row::ASend { a: a as u8 })
}

fn read_aend(fields: &[u8]) -> Option<Row>
    ensures found { IfSome result (λ row. ReadsWords row (codes "aend" ∷ words fields.now)) }
    ensures only { (row : RowValue) → ReadsWords row (codes "aend" ∷ words fields.now) →
        result ≡ Some row }
{
    let a = last_number(fields, MOST_OF_8_BITS)?;
    Some(Row::AEnd { a: a as u8 })
}
