ghost use Rattle.std.specs.Prelude.{◌≡◌};
ghost use Rattle.puffin_threads.specs.Details.Kind.{type_text};

/// Whether a scope is a whole function, or a part of one with a name of its own.
#[derive(Clone, Copy, Debug, PartialEq, Eq, PartialOrd, Ord, Hash)]
pub enum ScopeType {
    /// A whole function.
    Function,
    /// A scope with a name of its own.
    Named,
}

impl ScopeType {
    /// Returns `function scope` or `named`.
    pub fn type_str(&self) -> &'static str
        ensures { result.now ≡ type_text self.now }
    {
        match self {
            ScopeType::Function => "function scope",
            ScopeType::Named => "named",
        }
    }
}
