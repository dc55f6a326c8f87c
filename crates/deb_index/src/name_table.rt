//! Names, each once, with their numbers.
ghost use Rattle.std.specs.Prelude.{◌≡◌, ◌<◌, ◌++◌, ◌∷◌, [], None, length, OnErr, OnOk, slice_index_or};
ghost use Rattle.deb_index.specs.Tables.{hash_of, number_in};

use deb_relation::SmallText;
use std::alloc::{AllocError, Global};
use std::collections::HashMap;
use std::hash::{FoldHasher, Hasher};
use std::marker::Model;

/// Names, each once, in the order of their coming: the number of a name is its place. Contracts see the list of them.
#[derive(Drop)]
pub(crate) struct NameTable {
    /// Most of them lie in the value, and so in this list.
    texts: Vec<SmallText>,
    /// By a hash: the number of the first name that has it.
    firsts: HashMap<u64, usize>,
    /// The numbers of the names whose hash an earlier one has, of which there are hardly any.
    others: HashMap<Vec<u8>, usize>,
}

impl Model for NameTable {
    ghost use Rattle.std.specs.Prelude.{ℕ, List};
    ghost use Rattle.deb_index.specs.Tables.{AreNumbered};

    ghost Value = { List (List ℕ) };

    ghost view = { λ t. t.texts.items };

    ghost invariant = { λ t. AreNumbered t.texts.items t.firsts t.others };
}

// All bytes in one call: the hasher takes many of them at a time.
fn hash(name: &[u8]) -> u64
    ensures { result ≡ hash_of name.now }
{
    let mut hasher = FoldHasher::default();
    hasher.write(name);
    hasher.finish()
}

impl NameTable {
    /// No names.
    pub(crate) fn new(alloc: Global) -> NameTable
        ensures { result ≡ [] }
    {
        NameTable {
            texts: Vec::new(alloc),
            firsts: HashMap::new(alloc),
            others: HashMap::new(alloc),
        }
    }

    /// How many names there are.
    pub(crate) fn len(&self) -> usize
        ensures { result ≡ length self.now }
    {
        self.texts.len()
    }

    /// The number of a name.
    pub(crate) fn number(&self, name: &[u8]) -> Option<usize>
        ensures { result ≡ number_in name.now self.now }
    {
        let first = *self.firsts.get(&hash(name))?;
        if name == self.texts[first].as_slice() {
            return Some(first);
        }
        self.others.get(name).copied()
    }

    /// The name with a number.
    pub(crate) fn text(&self, number: usize) -> &[u8]
        requires { number < length self.now }
        ensures { result.now ≡ slice_index_or self.now number [] }
    {
        self.texts[number].as_slice()
    }

    /// Puts a name down that is not there, last.
    pub(crate) fn push(&mut self, alloc: Global, name: &[u8]) -> Result<(), AllocError>
        requires { number_in name.now self.old ≡ None }
        ensures added { OnOk result (self.new ≡ self.old ++ name.now ∷ []) }
        ensures kept { OnErr result (self.new ≡ self.old) }
    {
        let number = self.texts.len();
        let hash = hash(name);
        self.texts.reserve(1)?;
        let text = SmallText::from_slice(alloc, name)?;
        if self.firsts.contains_key(&hash) {
            let key = Vec::from_slice(alloc, name)?;
            self.others.insert(key, number)?;
        } else {
            self.firsts.insert(hash, number)?;
        }
        self.texts.push_reserved(text);
        Ok(())
    }
}
