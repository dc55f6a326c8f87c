//! Reading an index.
ghost use Rattle.std.specs.Prelude.{◌≡◌, ◌≢◌, ◌≤◌, IfOk, IfErr, IfNone, IfSome, Ok, Err, length};
ghost use Rattle.deb_index.specs.Packages.{IndexView};
ghost use Rattle.deb_index.specs.Reading.{IsBare, byte_limit, index_of, index_of_both};

use crate::builder::Builder;
use crate::error::{BothError, IndexError, in_back, in_fore};
use crate::index::Index;
use crate::parts::in_one;
use std::alloc::Global;

impl Index {
    /// Reads the index of a text for an architecture; without `essential` no name is essential. The error is the fault of the first
    /// stanza that has one, or want of memory.
    ///
    /// The text has at most `TEXT_LIMIT` bytes. A text of more than `STANZA_LIMIT` stanzas is refused as `TooManyStanzas`.
    pub fn read(
        alloc: Global,
        text: &[u8],
        arch: &str,
        essential: bool,
    ) -> Result<Index, IndexError>
        requires { length text.now ≤ byte_limit }
        ensures accepted { IfOk result (λ index. index_of text.now arch.now essential ≡ Ok index) }
        ensures refused { IfErr result (λ e. e ≢ IndexError.Memory → index_of text.now arch.now essential ≡ Err e) }
    {
        match Index::read_both(alloc, text, &[], arch, essential) {
            Ok(index) => Ok(index),
            Err(BothError::Fore(fault)) => Err(fault),
            Err(BothError::Back(fault)) => Err(fault),
            Err(BothError::Memory) => Err(IndexError::Memory),
        }
    }

    /// The fault for which `read` refuses a text, where it does: for whoever wants no index.
    pub fn fault_of(alloc: Global, text: &[u8], arch: &str, essential: bool) -> Option<IndexError>
        requires { length text.now ≤ byte_limit }
        ensures refused { IfSome result (λ e. e ≢ IndexError.Memory → index_of text.now arch.now essential ≡ Err e) }
        ensures accepted { IfNone result ((index : IndexView) × (index_of text.now arch.now essential ≡ Ok index)) }
    {
        match Index::read(alloc, text, arch, essential) {
            Ok(index) => {
                drop(index);
                None
            }
            Err(fault) => Some(fault),
        }
    }

    /// Reads the index of a text, the foreground, and of a background behind it. A stanza with the name and the version text of an earlier
    /// one that was kept, of either text, is a duplicate; names, essential names, constraints and what is counted go over both. The error
    /// is the first fault of the text or, where it has none, that of the background; or want of memory.
    ///
    /// Each text has at most `TEXT_LIMIT` bytes. Both together have at most `STANZA_LIMIT` stanzas; the first one beyond is refused as
    /// `TooManyStanzas` in the text where it stands. With an empty background this is `read`.
    pub fn read_both(
        alloc: Global,
        text: &[u8],
        background: &[u8],
        arch: &str,
        essential: bool,
    ) -> Result<Index, BothError>
        requires fore { length text.now ≤ byte_limit }
        requires back { length background.now ≤ byte_limit }
        ensures accepted { IfOk result (λ index. index_of_both text.now background.now arch.now essential ≡ Ok index) }
        ensures refused { IfErr result (λ e. e ≢ BothError.Memory → index_of_both text.now background.now arch.now essential ≡ Err e) }
        ensures bare { IfErr result IsBare }
    {
        let empty = Builder::new(alloc, arch.as_bytes(), essential)?;
        let parted = in_one(alloc, text)?;
        let fore = match empty.add_behind(alloc, 0, parted) {
            Ok(fore) => fore.end_foreground(),
            Err(error) => return Err(in_fore(error)),
        };
        let parted = in_one(alloc, background)?;
        let before = fore.stanzas();
        let both = match fore.add_behind(alloc, before, parted) {
            Ok(both) => both,
            Err(error) => return Err(in_back(error)),
        };
        let unlinked = both.finish(alloc)?;
        let index = unlinked.link(alloc)?;
        Ok(index)
    }
}
