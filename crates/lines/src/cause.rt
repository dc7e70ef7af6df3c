// Why a list of turns is refused.
ghost use Rattle.std.specs.Prelude.{◌≡◌};
ghost use Rattle.lines.specs.declared.cause.Cause.TheVariants.{Line};

/// What is wrong with a line of a list of turns.
#[derive(Clone, Copy, Debug, PartialEq, Eq)]
pub enum Cause {
    /// a line that says no turn
    Line(script::Cause),
    /// a turn of two networks that are not related
    NoLink,
}

impl From<script::Cause> for Cause {
    ghost from_gives = { λ cause r. r ≡ Line cause };

    fn from(cause: script::Cause) -> Cause {
        Cause::Line(cause)
    }
}
