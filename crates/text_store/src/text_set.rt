ghost use Rattle.std.specs.Prelude.{◌≡◌, IfOk, OnOk, OnErr};
ghost use Rattle.std.specs.FinMap.{empty};
ghost use Rattle.partial_model.specs.Texts.{with_text, texts_in};
ghost use Rattle.partial_model.specs.Partial.{IsPartial, spelled_partial};
ghost use Rattle.text_store.specs.TextSets.{IsKeptSet, texts_of_keys};

use base_core::{Text, Writer};
use std::alloc::{AllocError, Global};
use std::collections::BTreeSet;
use std::marker::Model;

/// A set of texts, in the order of their bytes. It holds fewer than 2^32 texts, each shorter than
/// 2^32 bytes.
#[derive(Debug, Drop)]
pub struct TextSet {
    texts: BTreeSet<Vec<u8>>,
    alloc: Global,
}

impl Model for TextSet {
    ghost use Rattle.std.specs.FinSet as set;
    ghost use Rattle.std.specs.Coded.{coded_ℕ, coded_list};
    ghost use Rattle.partial_model.specs.Texts.{SetOfTexts};
    ghost use Rattle.text_store.specs.TextSets.{IsKeptSet, set_of_keys};

    ghost Value = { SetOfTexts };

    ghost coded = { set.code (coded_list coded_ℕ) };

    ghost view = { λ s. set_of_keys s.texts.keys };

    ghost invariant = { λ s. IsKeptSet s.texts.keys };
}

impl TextSet {
    /// No texts. It takes no memory.
    pub fn new(alloc: Global) -> TextSet
        ensures { result ≡ empty }
    {
        TextSet {
            texts: BTreeSet::new(alloc),
            alloc,
        }
    }

    /// Puts a copy of a text in. A text that is there changes nothing. A text that is too long, and
    /// one too many, count as want of memory.
    pub fn put(&mut self, text: &[u8]) -> Result<(), AllocError>
        ensures ok { OnOk result (self.new ≡ with_text self.old text.now) }
        ensures err { OnErr result (self.new ≡ self.old) }
    {
        if text.len() > u32::MAX as usize || self.texts.len() >= u32::MAX as usize {
            if self.texts.contains(text) {
                return Ok(());
            }
            return Err(AllocError);
        }
        match self.texts.insert(Vec::from_slice(self.alloc, text)?) {
            Ok(_) => Ok(()),
            Err(_) => Err(AllocError),
        }
    }

    /// The texts, by rising bytes. They are not copied.
    pub(crate) fn into_texts(self) -> BTreeSet<Vec<u8>>
        ensures texts { texts_of_keys result.keys ≡ texts_in self }
        ensures held { IsPartial (texts_in self) }
    {
        self.texts
    }
}

/// The partial state that has the texts of a set: the byte 0, how many there are, and each as a
/// vector of bytes (Borsh 1.0), by rising bytes.
pub fn write_partial(alloc: Global, set: &TextSet) -> Result<Text, AllocError>
    ensures bytes { IfOk result (λ text. text ≡ spelled_partial (texts_in set.now)) }
    ensures held { IsPartial (texts_in set.now) }
{
    write_texts(alloc, &set.texts)
}

fn write_texts(alloc: Global, texts: &BTreeSet<Vec<u8>>) -> Result<Text, AllocError>
    requires { IsKeptSet texts.now.keys }
    ensures { IfOk result (λ text. text ≡ spelled_partial (texts_of_keys texts.now.keys)) }
{
    let mut writer = Writer::new(alloc);
    writer.put_u8(0)?;
    writer.put_u32(texts.len() as u32)?;
    for text in texts {
        writer.put_bytes(text.as_slice())?;
    }
    Ok(writer.into_text())
}
