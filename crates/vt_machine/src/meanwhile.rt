//! What the caller of a pass does while hands are at work.

/// What the caller of a pass does while hands are at work, as to write the picture before.
pub trait Meanwhile {
    /// Whether it is nothing, so that the caller has its thread for the pass.
    const IS_NOTHING: bool = false;

    /// It may be done.
    ghost ready: { Self → Type 0 };

    /// What it was and what it is, once it was done.
    ghost did: { Self → Self → Type 0 };

    /// Does it.
    fn act(&mut self)
        requires { ready self.old }
        ensures { did self.old self.new };
}

/// Nothing to do meanwhile.
#[derive(Clone, Copy)]
pub struct Nothing;

impl Meanwhile for Nothing {
    const IS_NOTHING: bool = true;

    ghost ready = { λ nothing. Unit {0} };

    ghost did = { λ before after. Unit {0} };

    fn act(&mut self) {}
}
