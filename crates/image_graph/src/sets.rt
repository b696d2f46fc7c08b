//! Sets of regions, as they are put together.

ghost use Rattle.std.specs.Prelude.{◌≡◌, ◌+◌, ◌*◌, ◌^◌, ◌<◌, if◌then◌else◌};

/// A set of regions below one, with that one besides if it is to be a member.
pub fn with_if(set: u64, region: usize, member: bool) -> u64
    requires region { region < 64 }
    requires below { set < 2 ^ region }
    ensures { result ≡ (if member then 1 else 0) * 2 ^ region + set }
{
    if member { set | 1 << region } else { set }
}
