// What becomes of a word by two changes.
ghost use Rattle.std.specs.Prelude.{◌≡◌};
ghost use Rattle.word_merge.specs.Pieces as pieces;
ghost use Rattle.word_merge.specs.Steps as steps;

// What becomes of a word by two changes of a text.
#[derive(Clone, Copy, Debug, PartialEq, Eq)]
pub enum Fate {
    // Both keep it.
    Kept,
    // The one removes it, and the other keeps it.
    OneRemoves,
    // The one adds it.
    OneAdds,
    // The other removes it, and the one keeps it.
    OtherRemoves,
    // The other adds it.
    OtherAdds,
}

// Whose change a word is of.
#[derive(Clone, Copy, Debug, PartialEq, Eq)]
pub enum Owner {
    Nobody,
    One,
    Other,
}

impl Fate {
    // Whether it is in the text of both changes.
    pub(crate) fn is_of_both(self) -> bool
        ensures { result ≡ pieces.is_of_both self }
    {
        match self {
            Fate::Kept | Fate::OneAdds | Fate::OtherAdds => true,
            Fate::OneRemoves | Fate::OtherRemoves => false,
        }
    }

    // Whose change it is of.
    pub(crate) fn owner(self) -> Owner
        ensures { result ≡ pieces.owner self }
    {
        match self {
            Fate::Kept => Owner::Nobody,
            Fate::OneRemoves | Fate::OneAdds => Owner::One,
            Fate::OtherRemoves | Fate::OtherAdds => Owner::Other,
        }
    }

    // Whether it is a step of the one change.
    pub(crate) fn is_step_of_one(self) -> bool
        ensures { result ≡ steps.is_step_of_one self }
    {
        match self {
            Fate::Kept | Fate::OneRemoves | Fate::OneAdds | Fate::OtherRemoves => true,
            Fate::OtherAdds => false,
        }
    }

    // Whether it is a step of the other change.
    pub(crate) fn is_step_of_other(self) -> bool
        ensures { result ≡ steps.is_step_of_other self }
    {
        match self {
            Fate::Kept | Fate::OneRemoves | Fate::OtherRemoves | Fate::OtherAdds => true,
            Fate::OneAdds => false,
        }
    }
}

impl Owner {
    // Whether a change of this owner may come directly after one of another.
    pub(crate) fn may_follow(self, before: Owner) -> bool
        ensures { result ≡ pieces.are_apart before self }
    {
        match (before, self) {
            (Owner::One, Owner::Other) | (Owner::Other, Owner::One) => false,
            _ => true,
        }
    }
}
