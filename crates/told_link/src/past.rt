ghost use Rattle.std.specs.Prelude.{◌≡◌, ◌<◌, ◌+◌, nat_le};

/// Whether so much has passed, now, since an earlier reading.
pub fn is_past(now: u64, since: u64, span: u64) -> bool
    requires { 0 < span }
    ensures { result ≡ nat_le (since + span) now }
{
    now.saturating_sub(since) >= span
}
