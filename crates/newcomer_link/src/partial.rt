ghost use Rattle.std.specs.Prelude.{◌≡◌, ◌≤◌, length};
ghost use Rattle.newcomer_link.specs.Partials as partials;

use can_frame::{Entry, Uid, is_zero};

/// A part of a unique ID, as a request brings it.
#[derive(Clone, Copy, Debug, PartialEq, Eq)]
pub enum Part {
    First([u8; 6]),
    Second([u8; 6]),
    Third([u8; 4]),
}

/// A unique ID as far as requests told it.
#[derive(Clone, Copy, Debug, PartialEq, Eq)]
pub struct Partial {
    pub first: Option<[u8; 6]>,
    pub second: Option<[u8; 6]>,
    pub third: Option<[u8; 4]>,
}

/// Nothing was told yet.
pub const UNTOLD: Partial = Partial {
    first: None,
    second: None,
    third: None,
};

/// How many bytes of a unique ID stand before its second part, and before its third.
const BEFORE_SECOND: usize = 6;

const BEFORE_THIRD: usize = 12;

impl Part {
    /// Whether the unique ID is whole with it.
    pub fn completes(self) -> bool
        ensures { result ≡ partials.makes_whole self }
    {
        match self {
            Part::First(_) | Part::Second(_) => false,
            Part::Third(_) => true,
        }
    }

    fn is_of(self, uid: &Uid) -> bool
        ensures { result ≡ partials.has_part uid.now self }
    {
        match self {
            Part::First(bytes) => has_bytes_at(0, uid, &bytes),
            Part::Second(bytes) => has_bytes_at(BEFORE_SECOND, uid, &bytes),
            Part::Third(bytes) => has_bytes_at(BEFORE_THIRD, uid, &bytes),
        }
    }
}

impl Partial {
    /// The same with a part.
    pub fn with(self, part: Part) -> Partial
        ensures { result ≡ partials.with_part self part }
    {
        let Partial {
            first,
            second,
            third,
        } = self;
        match part {
            Part::First(bytes) => Partial {
                first: Some(bytes),
                second,
                third,
            },
            Part::Second(bytes) => Partial {
                first,
                second: Some(bytes),
                third,
            },
            Part::Third(bytes) => Partial {
                first,
                second,
                third: Some(bytes),
            },
        }
    }

    fn is_of(self, uid: &Uid) -> bool
        ensures { result ≡ partials.has_all_told uid.now self }
    {
        has_six(0, uid, self.first)
            && has_six(BEFORE_SECOND, uid, self.second)
            && has_four(BEFORE_THIRD, uid, self.third)
    }
}

/// Whether an entry is of a device whose unique ID has all that was told, and a part.
pub fn is_of_log(log: &[Entry], partial: Partial, part: Part) -> bool
    ensures { result ≡ partials.is_of_log log.now partial part }
{
    log.iter()
        .any(|entry| is_device_told(partial, part, &entry.uid))
}

fn is_device_told(partial: Partial, part: Part, uid: &Uid) -> bool
    ensures { result ≡ partials.is_device_told partial part uid.now }
{
    is_of_device(uid) && partial.is_of(uid) && part.is_of(uid)
}

/// Blanks and reservations have a unique ID of zeros.
fn is_of_device(uid: &Uid) -> bool
    ensures { result ≡ partials.is_of_device uid.now }
{
    !is_zero(uid)
}

fn has_six(offset: usize, uid: &Uid, told: Option<[u8; 6]>) -> bool
    requires { offset ≤ 16 }
    ensures { result ≡ partials.has_told offset uid.now told }
{
    match told {
        Some(bytes) => has_bytes_at(offset, uid, &bytes),
        None => true,
    }
}

fn has_four(offset: usize, uid: &Uid, told: Option<[u8; 4]>) -> bool
    requires { offset ≤ 16 }
    ensures { result ≡ partials.has_told offset uid.now told }
{
    match told {
        Some(bytes) => has_bytes_at(offset, uid, &bytes),
        None => true,
    }
}

/// Whether a unique ID has these bytes behind so many others.
fn has_bytes_at(offset: usize, uid: &Uid, bytes: &[u8]) -> bool
    requires { offset ≤ 16 }
    ensures { result ≡ partials.has_bytes_at offset uid.now bytes.now }
{
    uid[offset..].starts_with(bytes)
}
