//! Data of an object: a text that no collection reads.
ghost use Rattle.std.specs.Prelude.{◌≡◌, ◌≤◌, [], length, sum_by, IfOk, None, bytes_eq};
ghost use Rattle.std.specs.Cmp.{partial_equiv_from_equiv};
ghost use Rattle.std.proofs.lemmas.Cmp.{nat_list_eq_equiv};
ghost use Rattle.meta_types.specs.Data.{written_bytes, is_data};
ghost use Rattle.meta_types.specs.Faults.{Refuses, unless};
ghost use Rattle.meta_types.specs.declared.fault.Fault.TheVariants.{InvalidArgument};

use crate::fault::Fault;
use std::alloc::{AllocError, Global};
use std::marker::Model;
use std::sync::ArcStr;

// The most bytes of data, as JSON writes them.
const MAX_DATA_BYTES: usize = 49152;

fn written_bytes(byte: u8) -> usize
    ensures { result ≡ written_bytes byte }
{
    if byte == 34 || byte == 92 || (8 <= byte && byte <= 10) || byte == 12 || byte == 13 {
        2
    } else if byte < 32 {
        6
    } else {
        1
    }
}

fn written_length(text: &[u8]) -> usize
    requires { length text.now ≤ 49152 }
    ensures { result ≡ sum_by written_bytes text.now }
{
    let mut written = 0usize;
    for byte in text {
        written += written_bytes(*byte);
    }
    written
}

#[tactic(auto, using(crate::proofs::WrittenData::no_longer))]
fn is_data(text: &str) -> bool
    ensures { result ≡ is_data text.now }
{
    let bytes = text.as_bytes();
    if bytes.len() > MAX_DATA_BYTES {
        return false;
    }
    written_length(bytes) <= MAX_DATA_BYTES
}

/// Data of an object. An empty text takes no memory.
#[derive(Drop)]
pub struct Data {
    text: Option<ArcStr>,
}

impl Model for Data {
    ghost use Rattle.std.specs.Prelude.{List, [], ℕ};
    ghost use Rattle.std.specs.Option.{option_map_or};
    ghost use Rattle.std.specs.Arc.{arc_str_bytes};

    ghost Value = { List ℕ };

    ghost view = { λ d. option_map_or (λ t. arc_str_bytes t) d.text [] };
}

impl PartialEq for Data {
    ghost eq = { λ a b. bytes_eq a b };

    ghost laws = { partial_equiv_from_equiv nat_list_eq_equiv };

    fn eq(&self, other: &Data) -> bool {
        self.text() == other.text()
    }
}

impl Clone for Data {
    ghost is_clone = { λ a b. b ≡ a };

    fn clone(&self) -> Result<Data, AllocError> {
        match &self.text {
            Some(text) => {
                let text = text.clone()?;
                Ok(Data { text: Some(text) })
            }
            None => Ok(Data { text: None }),
        }
    }
}

impl Data {
    /// No data.
    pub fn new() -> Data
        ensures { result ≡ [] }
    {
        Data { text: None }
    }

    /// Reads a text. Its bytes are copied once; all copies of the data share them.
    pub fn read(alloc: Global, text: &str) -> Result<Data, Fault>
        ensures fault { Refuses result (unless (is_data text.now) InvalidArgument) }
        ensures ok { IfOk result (λ d. d ≡ text.now) }
    {
        if !is_data(text) {
            return Err(Fault::InvalidArgument);
        }
        let text = ArcStr::from_str(alloc, text)?;
        Ok(Data { text: Some(text) })
    }

    /// A copy, which shares its text: no bytes are copied.
    pub fn copy(&self) -> Result<Data, Fault>
        ensures fault { Refuses result None }
        ensures ok { IfOk result (λ d. d ≡ self.now) }
    {
        Ok(Data::clone(self)?)
    }

    /// The text as it was read.
    pub fn text(&self) -> &str
        ensures { result.now ≡ self.now }
    {
        match &self.text {
            Some(text) => text.as_str(),
            None => "",
        }
    }
}
