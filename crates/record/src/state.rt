// The states of the reading, and which fields may stand in them.
ghost use Rattle.std.specs.Prelude.{◌≡◌};
ghost use Rattle.record.specs.Fields.{next, length_of};

use crate::fault::Cause;

// What may come next.
#[derive(Clone, Copy, Debug, PartialEq, Eq)]
pub enum State {
    // the edition is awaited
    Edition,
    // a mount is allowed, or rows
    Mount,
    // rows only
    Rows,
}

// A field by its tag.
#[derive(Clone, Copy, Debug, PartialEq, Eq)]
pub enum Kind {
    Edition,
    Mount,
    Enter,
    Withdraw,
    Correct,
}

impl Kind {
    // The length of its body.
    pub fn length(self) -> usize
        ensures { result ≡ length_of self }
    {
        match self {
            Kind::Edition => 1,
            Kind::Mount | Kind::Withdraw => 2,
            Kind::Enter | Kind::Correct => 8,
        }
    }
}

// May the tag stand here, and what is the state then? State and tag are matched together, by a rule of the project.
pub fn stand(state: State, tag: u8) -> Result<(Kind, State), Cause>
    ensures { result ≡ next state tag }
{
    match (state, tag) {
        (State::Edition, 1) => Ok((Kind::Edition, State::Mount)),
        (State::Mount, 2) => Ok((Kind::Mount, State::Rows)),
        (State::Mount | State::Rows, 3) => Ok((Kind::Enter, State::Rows)),
        (State::Mount | State::Rows, 4) => Ok((Kind::Withdraw, State::Rows)),
        (State::Mount | State::Rows, 5) => Ok((Kind::Correct, State::Rows)),
        _ => Err(Cause::Tag),
    }
}
