ghost use Rattle.std.specs.Prelude.{◌≡◌, ◌<◌, ◌+◌};
ghost use Rattle.heap_words.specs.Access.{table_index};
ghost use Rattle.heap_words.specs.Words.{table_words};
ghost use Rattle.heap_words.specs.Touch.{placed};
ghost use Rattle.handshake.specs.EnterRows.{leave_touch};
ghost use Rattle.handshake.specs.StopRows.{go_touch};

use crate::values::{OUT, UNWANTED};
use heap_words::{Access, Config};

/// The one access by which the mutator or helper of a seat leaves the heap: it stores into its state word that it is out.
pub fn leave_access(config: Config, seat: usize) -> Access
    requires { seat < config.mutators + config.helpers }
    ensures row { result ≡ placed config (leave_touch seat) }
    ensures inside { table_index result < table_words config }
{
    // keeps IsShaken
    Access::store(config.state_at(seat), OUT)
}

/// The one access by which the control ends a pause: it stores that none is wanted.
pub fn go_access(config: Config) -> Access
    ensures row { result ≡ placed config go_touch }
    ensures inside { table_index result < table_words config }
{
    // keeps IsShaken
    Access::store(config.pause_at(), UNWANTED)
}
