use heap_words::Took;

/// What a machine said of the step that it was given.
#[derive(Clone, Copy, Debug, PartialEq, Eq)]
pub enum Stepped {
    /// It has more to do.
    More,
    /// It waits for another machine, and will look again.
    Again,
    /// It has ended its call.
    Done,
    /// It had nothing to do, and made no step.
    Idle,
}

impl Stepped {
    ghost use Rattle.std.specs.Prelude.{◌≡◌};
    ghost use Rattle.heap_machines.specs.Answer.{stepped_of};

    /// What a machine said that made its step.
    pub fn of(said: Took) -> Stepped
        ensures { result ≡ stepped_of said }
    {
        match said {
            Took::More => Stepped::More,
            Took::Again => Stepped::Again,
            Took::Done => Stepped::Done,
        }
    }
}
