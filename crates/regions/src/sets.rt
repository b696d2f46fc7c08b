ghost use Rattle.std.specs.Prelude.{ℕ, ◌≡◌, ◌≢◌, ◌<◌, IfSome, IsNone, IsTrue, ◌↔◌};
ghost use Rattle.regions.specs.Sets.{IsIn, IsLowest, members_below, lowest_in, all_but};

/// Whether a region, counted from 0, is in a set.
pub fn is_in(set: u64, region: usize) -> bool
    requires { region < 64 }
    ensures { IsTrue result ↔ IsIn set region }
{
    set >> region & 1 == 1
}

/// The lowest region of a set, counted from 0, or nothing where the set is empty.
pub fn lowest(set: u64) -> Option<usize>
    ensures none { IsNone result ↔ (set ≡ 0) }
    ensures lowest { IfSome result (IsLowest set) }
    ensures value { IfSome result (λ region. region ≡ lowest_in set) }
{
    if set == 0 {
        None
    } else {
        Some(set.trailing_zeros() as usize)
    }
}

/// How many regions are in a set.
pub fn size(set: u64) -> u32
    ensures { result ≡ members_below set 64 }
{
    set.count_ones()
}

/// The set of all regions but one, which is counted from 0.
pub fn all_but(region: usize) -> u64
    requires { region < 64 }
    ensures value { result ≡ all_but region }
    ensures members { (any_region : ℕ) → IsIn result any_region ↔ ((any_region < 64) × (any_region ≢ region)) }
{
    !(1 << region)
}
