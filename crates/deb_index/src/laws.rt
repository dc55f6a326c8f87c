//! Laws of the definitions: functions without work, whose contracts say what holds.
ghost use Rattle.std.specs.Prelude.{◌≡◌, ℕ, Bool, false, List, [], Ok, length, take};
ghost use Rattle.std.specs.List.{AllPairs};
ghost use Rattle.deb_index.specs.Packages.{IndexView};
ghost use Rattle.deb_index.specs.Reading.{byte_limit, in_fore, index_of, index_of_both, same_package, stanza_limit};

use crate::limits::{STANZA_LIMIT, TEXT_LIMIT};

/// What a background adds to the index of a text.
pub fn background()
    // An empty one adds nothing, so that `Index::read` is `Index::read_both` with an empty background.
    ensures empty { (text arch : List ℕ) (with_essential : Bool) → index_of_both text [] arch with_essential ≡ in_fore (index_of text arch with_essential) }

    // The text's packages are the foreground, at the places that they have in its own index.
    ensures count { (text background arch : List ℕ) (with_essential : Bool) (fore both : IndexView) → index_of text arch with_essential ≡ Ok fore
        → index_of_both text background arch with_essential ≡ Ok both → both.foreground ≡ length fore.packages }
    ensures front { (text background arch : List ℕ) (with_essential : Bool) (fore both : IndexView) → index_of text arch with_essential ≡ Ok fore
        → index_of_both text background arch with_essential ≡ Ok both → take both.foreground both.packages ≡ fore.packages }

    // No two packages, of whichever text, have one name and version text.
    ensures distinct { (text background arch : List ℕ) (with_essential : Bool) (both : IndexView)
        → index_of_both text background arch with_essential ≡ Ok both → AllPairs (λ p q. same_package p q ≡ false) both.packages }
{}

/// The limits are those of the definitions.
pub fn limits()
    ensures bytes { TEXT_LIMIT ≡ byte_limit }
    ensures stanzas { STANZA_LIMIT ≡ stanza_limit }
{}
