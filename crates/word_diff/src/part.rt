ghost use Rattle.std.specs.Prelude.{◌≡◌};
ghost use Rattle.word_diff.specs.Kinds.{is_new, is_old};

/// On which side a part of two texts is.
#[derive(Clone, Copy, Debug, PartialEq, Eq)]
pub enum Kind {
    /// In both texts.
    Kept,
    /// In the old text alone.
    Removed,
    /// In the new text alone.
    Added,
}

impl Kind {
    /// Whether it is in the old text.
    pub fn is_old(self) -> bool
        ensures { result ≡ is_old self }
    {
        match self {
            Kind::Kept | Kind::Removed => true,
            Kind::Added => false,
        }
    }

    /// Whether it is in the new text.
    pub fn is_new(self) -> bool
        ensures { result ≡ is_new self }
    {
        match self {
            Kind::Kept | Kind::Added => true,
            Kind::Removed => false,
        }
    }
}

/// A part of two texts, lent from one that it is in. It is whole words.
#[derive(Clone, Copy, Debug, PartialEq, Eq)]
pub struct Part<'a> {
    pub kind: Kind,
    pub text: &'a str,
}
