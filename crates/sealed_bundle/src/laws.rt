//! Laws of sealed bundles, over the definitions alone. Each function does nothing: its contract is
//! the law.
ghost use Rattle.sealed_bundle.specs.Laws as laws;

/// What is sealed is opened as it was, and what is opened is sealed so: of all bytes, exactly one
/// opens to a bundle.
pub fn sealed_is_opened()
    ensures opened { laws.SealedIsOpened }
    ensures sealed { laws.OpenedIsSealed }
{}

/// No proper front of a sealed bundle is one, and each is refused as cut; and nothing may follow.
pub fn only_whole_is_opened()
    ensures fronts { laws.FrontsAreCut }
    ensures more { laws.MoreIsRefused }
{}

/// No change of the first 48 bytes of a sealed bundle is passed over, and each part of them is
/// refused by a fault of its own.
pub fn changed_header_is_refused()
    ensures any { laws.ChangedHeaderIsRefused }
    ensures magic { laws.OtherMagicIsRefused }
    ensures length { laws.OtherLengthIsRefused }
    ensures digest { laws.OtherDigestIsRefused }
{}

/// As many other bytes in the place of a bundle are refused, unless they have its digest.
pub fn changed_bundle_is_refused()
    ensures { laws.ChangedBundleIsRefused }
{}

/// A seal comes off what is sealed, and what has none stays as it is.
pub fn seals_come_off()
    ensures sealed { laws.SealsComeOff }
    ensures bare { laws.BareStays }
{}

/// A sealed bundle is opened as it was, whatever follows it.
pub fn first_is_opened()
    ensures { laws.FirstIsOpened }
{}
