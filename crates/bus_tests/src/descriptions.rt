ghost use Rattle.std.specs.Prelude.{◌≤◌, length};
ghost use Rattle.can_frame.specs.Sizes.{longest_payload};

use crate::same::same;
use dsdl_text::{LineFault, Numbers, TextReader, Texts};
use dsdl_text_codec_laws::PROFILE;
use std::test::Fail;

/// The types of a text, or the fault of the first line that has one.
fn text_of(text: &[u8]) -> Result<Texts, LineFault> {
    let mut reader = TextReader::new();
    for line in text.split(|&byte| byte == b'\n') {
        reader.line(line)?;
    }
    Ok(reader.finish())
}

fn fault_of(text: &[u8]) -> Option<LineFault> {
    text_of(text).err()
}

fn numbers_of(text: &Texts, name: &[u8], part: u8, payload: &[u8]) -> Option<Numbers>
    requires { length payload.now ≤ longest_payload }
{
    let at = text.find(name, part)?;
    text.decode(at, payload)
}

#[test]
fn payloads_have_numbers_under_the_profile(rt: HostRuntime) -> Result<(), Fail> {
    let text = text_of(PROFILE)?;
    let request = numbers_of(&text, b"Allocation", 1, &[0xfb, 0, 1, 2, 3, 4, 5]);
    let request = request.ok_or("no value")?;
    assert!(rt;
        same(
            &request.as_slice(),
            &[125, 1, 6, 0, 1, 2, 3, 4, 5].as_slice()
        )
    );
    let answer = numbers_of(&text, b"AppendEntries", 2, &[1, 0, 0, 0, 0x7f]);
    let answer = answer.ok_or("no value")?;
    assert!(rt; same(&answer.as_slice(), &[1, 0].as_slice()));
    let nothing = numbers_of(&text, b"GetNodeInfo", 1, &[]).ok_or("no value")?;
    assert!(rt; nothing.is_empty());
    assert!(rt; numbers_of(&text, b"Allocation", 1, &[]).is_none());
    assert!(rt; text.find(b"Allocation", 2).is_none());
    Ok(())
}

/// BeginFirmwareUpdate of UAVCAN v0: its last field is a type that ends in an array.
const FIRMWARE: &[u8] = b"@ Path
uint8[<=200] path
@ BeginFirmwareUpdate
uint8 source_node_id
Path image_file_remote_path
@ Two
Path first
Path second
@ Pair
uint8 number
Two paths
@ Paths
Path[2] paths";

#[test]
fn what_stands_at_the_end_has_no_count(rt: HostRuntime) -> Result<(), Fail> {
    let text = text_of(FIRMWARE)?;
    let update = numbers_of(&text, b"BeginFirmwareUpdate", 1, b"\x05a.b").ok_or("no value")?;
    assert!(rt; same(&update.as_slice(), &[5, 3, 97, 46, 98].as_slice()));
    let pair = numbers_of(&text, b"Pair", 1, b"\x07\x01ab").ok_or("no value")?;
    assert!(rt; same(&pair.as_slice(), &[7, 1, 97, 1, 98].as_slice()));
    let paths = numbers_of(&text, b"Paths", 1, b"\x01abc").ok_or("no value")?;
    assert!(rt; same(&paths.as_slice(), &[1, 97, 2, 98, 99].as_slice()));
    Ok(())
}

#[test]
fn each_line_has_its_first_fault(rt: HostRuntime) {
    assert!(rt; same(&fault_of(b"# remark\n\nuint8 x"), &Some(LineFault::Form)));
    assert!(rt; same(&fault_of(b"@ A\nuint8[0] x"), &Some(LineFault::Form)));
    assert!(rt; same(&fault_of(b"uint9 x"), &Some(LineFault::Form)));
    assert!(rt; same(&fault_of(b"@ A\nuint9 x"), &Some(LineFault::Unknown)));
    assert!(rt; same(&fault_of(b"@ A\n---\n@ B\nA x"), &Some(LineFault::Unknown)));
    assert!(rt;
        same(
            &fault_of(b"@ A\nuint8 x\nuint9 x"),
            &Some(LineFault::Unknown)
        )
    );
    assert!(rt; same(&fault_of(b"@ A\n@ A"), &Some(LineFault::Twice)));
    assert!(rt;
        same(
            &fault_of(b"@ A\nuint8 x\nbool X = 1\nuint8 x"),
            &Some(LineFault::Twice)
        )
    );
    assert!(rt; same(&fault_of(b"@ A\n---\n---"), &Some(LineFault::Twice)));
    assert!(rt;
        same(
            &fault_of(b"@ A\nbool X = 1\nbool X = 2"),
            &Some(LineFault::Twice)
        )
    );
    assert!(rt; same(&fault_of(b"@ A\nuint8 X = 256"), &Some(LineFault::Range)));
    assert!(rt;
        same(
            &fault_of(b"@ A\nbool X = 18446744073709551616"),
            &Some(LineFault::Range)
        )
    );
    assert!(rt; fault_of(b"@ A\n  uint8[<=3]   x# remark\nbool X = 1\n---\nbool x").is_none());
}

/// A text of so many lines.
fn fault_behind(count: usize, first: &[u8], line: &[u8]) -> Result<(), LineFault> {
    let mut reader = TextReader::new();
    reader.line(first)?;
    for _ in 0..count {
        reader.line(line)?;
    }
    Ok(())
}

#[test]
fn a_part_has_32_fields_at_the_most(rt: HostRuntime) {
    assert!(rt; fault_behind(32, b"@ A", b"void1").is_ok());
    assert!(rt; same(&fault_behind(33, b"@ A", b"void1"), &Err(LineFault::Many)));
}
