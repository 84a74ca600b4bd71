ghost use Rattle.std.specs.Prelude.{◌≡◌, ◌≤◌, ◌==◌, length, None};
ghost use Rattle.std.specs.List.{position_or_len};
ghost use Rattle.std.specs.Option.{option_map};
ghost use Rattle.can_frame.specs.Sizes.{longest_payload};
ghost use Rattle.dsdl_text.specs.declared.line.Line.{Line};
ghost use Rattle.dsdl_text.specs.Lines.{Reads};
ghost use Rattle.dsdl_text.specs.Reader.{data_types, text_of};
ghost use Rattle.dsdl_text.specs.Text.{fault_of, text_after, types_in};
ghost use Rattle.dsdl_text_codec_laws.specs.Codecs.{codec_numbers};
ghost use Rattle.dsdl_text_codec_laws.specs.Profile.{EndsAs, profile};

use crate::codec::Codec;
use crate::text::PROFILE;
use dsdl_codec::Numbers;
use dsdl_text::{TextReader, Texts};

/// The types of the profile, read from its text.
pub fn profile_types() -> Texts
    ensures { data_types result ≡ types_in profile }
{
    let mut reader = TextReader::new();
    take_lines(&mut reader, PROFILE);
    reader.finish()
}

/// The numbers of a payload under the text of the profile: those of the value that the codec reads, and
/// `None` exactly where it reads none.
pub fn numbers_by_text(texts: &Texts, codec: Codec, payload: &[u8]) -> Option<Numbers>
    requires profile { data_types texts.now ≡ types_in profile }
    requires size { length payload.now ≤ longest_payload }
    ensures { option_map (λ found. found.items) result ≡ codec_numbers codec payload.now }
{
    match texts.find(codec.type_name(), codec.part()) {
        None => unreachable!(),
        Some(at) => texts.decode(at, payload),
    }
}

/// Takes the lines of what is left of the profile.
fn take_lines(reader: &mut TextReader, text: &[u8])
    requires { EndsAs (text_of reader.old) text.now profile }
    ensures { text_of reader.new ≡ profile }
{
    let end = line_end(text);
    take_line(reader, &text[..end]);
    if end < text.len() {
        take_lines(reader, &text[end + 1..]);
    }
}

/// Takes a line without a fault.
fn take_line(reader: &mut TextReader, line: &[u8])
    requires { (value : Line) × Reads value line.now × (fault_of (text_of reader.old) value ≡ None) }
    ensures { (value : Line) → Reads value line.now → fault_of (text_of reader.old) value ≡ None →
        text_of reader.new ≡ text_after (text_of reader.old) value }
{
    match reader.line(line) {
        Ok(()) => {}
        Err(_) => unreachable!(),
    }
}

/// Where the first line ends: at its line feed, or at the end of the text.
fn line_end(text: &[u8]) -> usize
    ensures place { result ≡ position_or_len (λ byte. byte == 10) text.now }
    ensures within { result ≤ length text.now }
{
    text.iter()
        .position(|&byte| byte == b'\n')
        .unwrap_or(text.len())
}
