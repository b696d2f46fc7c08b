ghost use Rattle.std.specs.Prelude.{◌≡◌, ◌⊎◌};

use atomic_table::Seat;

/// Where both are of one table, each becomes the other. Nothing runs.
pub fn exchange_in_one_table<S, V>(one: &mut Seat<S, V>, other: &mut Seat<S, V>)
    ensures { (one.new.table_id ≡ one.old.table_id) × (other.new.table_id ≡ other.old.table_id) × (one.old.table_id ≡ other.old.table_id → (one.new.me ≡ other.old.me) × (other.new.me ≡ one.old.me)) × ((other.new.me ≡ one.old.me) ⊎ (other.new.me ≡ other.old.me)) }
{}
