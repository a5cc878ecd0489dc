//! The keys of a policy file and of a pattern in it.
ghost use Rattle.std.specs.Prelude.{◌≡◌};
ghost use Rattle.ac_policy_table.specs.Keys.{policy_key_text, pattern_key_text, is_policy_key, is_pattern_key};

/// The keys of a policy file.
#[derive(Clone, Copy, Debug)]
pub enum PolicyKey {
    Library,
    Pattern,
    Policies,
    Roles,
    Version,
}

impl PolicyKey {
    /// How the key is spelled.
    pub fn text(self) -> &'static str
        ensures { result.now ≡ policy_key_text self }
    {
        match self {
            PolicyKey::Library => "library",
            PolicyKey::Pattern => "pattern",
            PolicyKey::Policies => "policies",
            PolicyKey::Roles => "roles",
            PolicyKey::Version => "version",
        }
    }
}

/// The keys of a pattern.
#[derive(Clone, Copy)]
pub enum PatternKey {
    Apart,
    Code,
    Fixed,
    Gives,
    Hot,
    Loops,
    Name,
    Policies,
}

impl PatternKey {
    /// How the key is spelled.
    pub fn text(self) -> &'static str
        ensures { result.now ≡ pattern_key_text self }
    {
        match self {
            PatternKey::Apart => "apart",
            PatternKey::Code => "code",
            PatternKey::Fixed => "fixed",
            PatternKey::Gives => "gives",
            PatternKey::Hot => "hot",
            PatternKey::Loops => "loops",
            PatternKey::Name => "name",
            PatternKey::Policies => "policies",
        }
    }
}

/// Whether a text is a key of a policy file.
pub(crate) fn is_policy_key(text: &str) -> bool
    ensures { result ≡ is_policy_key text.now }
{
    text == "library"
        || text == "pattern"
        || text == "policies"
        || text == "roles"
        || text == "version"
}

/// Whether a text is a key of a pattern.
pub(crate) fn is_pattern_key(text: &str) -> bool
    ensures { result ≡ is_pattern_key text.now }
{
    text == "apart"
        || text == "code"
        || text == "fixed"
        || text == "gives"
        || text == "hot"
        || text == "loops"
        || text == "name"
        || text == "policies"
}
