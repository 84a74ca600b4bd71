ghost use Rattle.std.specs.Prelude.{◌≡◌, ◌≤◌, ◌<◌, length};
ghost use Rattle.cmd_replace.specs.Replaced.{line_of, made_line};

use cmd_io::{Status, number_line, numbers_line};
use replay_text::Line;

/// The line of a run that made the store of the lost member from that of the leader, with so many entries.
pub fn line_made(lost: u8, leader: u8, entries: u8) -> Line
    ensures short { length result ≤ 400 }
    ensures text { result ≡ made_line lost leader entries }
{
    let mut line = Line::new();
    line.text(b"replaced ");
    line.number(u64::from(lost));
    line.field(u64::from(leader));
    line.field(u64::from(entries));
    line.text(b"\n");
    line
}

/// The line of a run that ends so, and made nothing.
pub fn end_line(status: Status) -> Line
    ensures short { length result ≤ 400 }
    ensures text { result ≡ line_of status }
{
    match status {
        Status::DiskFault(id) => number_line(b"disk fault ", u64::from(id)),
        Status::Damaged(id, key) => numbers_line(b"damaged ", u64::from(id), u64::from(key)),
        Status::Uncommitted(id) => number_line(b"uncommitted ", u64::from(id)),
        Status::NoLeader => {
            let mut line = Line::new();
            line.text(b"no leader\n");
            line
        }
        _ => Line::new(),
    }
}
