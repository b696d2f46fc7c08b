ghost use Rattle.std.specs.Prelude.{◌≡◌};

use crate::out::go_access;
use heap_words::{Access, Config, Place, Took};

/// The control that ends a pause, in one step.
#[derive(Drop)]
pub struct Go {
    config: Config,
    is_done: bool,
}

impl Go {
    ghost use Rattle.std.specs.Prelude.{false, true, ◌<◌};
    ghost use Rattle.heap_words.specs.Access.{table_index};
    ghost use Rattle.heap_words.specs.Words.{table_words};
    ghost use Rattle.heap_words.specs.Touch.{placed};
    ghost use Rattle.handshake.specs.StopRows.{go_touch};
    ghost use Rattle.handshake.specs.Seen.{config_of_go, has_gone};

    /// A control whose work in the pause is done.
    pub fn new(config: Config) -> Go
        ensures config { config_of_go result ≡ config }
        ensures going { has_gone result ≡ false }
    {
        Go {
            config,
            is_done: false,
        }
    }

    /// Whether the pause has ended. It makes no step then.
    pub fn is_done(&self) -> bool
        ensures { result ≡ has_gone self.now }
    {
        self.is_done
    }

    /// The place of its access.
    pub fn place(&self) -> Place
        requires { has_gone self.now ≡ false }
        ensures { result ≡ Place.P3 }
    {
        Place::P3
    }

    /// The access of its step.
    pub fn plan(&self) -> Access
        requires { has_gone self.now ≡ false }
        ensures row { result ≡ placed (config_of_go self.now) go_touch }
        ensures inside { table_index result < table_words (config_of_go self.now) }
    {
        go_access(self.config)
    }

    /// Goes on with the word that its access has found, whatever it is.
    pub fn took(&mut self, _got: u64) -> Took
        requires { has_gone self.old ≡ false }
        ensures gone { has_gone self.new ≡ true }
        ensures config { config_of_go self.new ≡ config_of_go self.old }
        ensures says { result ≡ Took.Done }
    {
        self.is_done = true;
        Took::Done
    }
}
