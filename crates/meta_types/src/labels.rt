//! Labels of an object: values by key, both of limited length.
ghost use Rattle.std.specs.Prelude.{◌≡◌, ◌≤◌, ◌<◌, ◌==◌, ◌||◌, ◌&&◌, ◌∷◌, [], Some, None, bytes_eq, nat_lt, vec_len, position, length, is_ok, slice_set, slice_index_or, option_map, string_bytes, IfOk, IfErr, OnOk, OnErr, IsTrue};
ghost use Rattle.std.specs.Cmp.{partial_equiv_from_equiv};
ghost use Rattle.std.specs.Cmp.Lexicographic.{pointwise};
ghost use Rattle.std.proofs.lemmas.Cmp.{nat_list_eq_equiv, on_equiv, and_equiv, lists_equiv};
ghost use Rattle.std.specs.List.{position_or_len, insert, remove};
ghost use Rattle.std.specs.Slice.Iter.{iter_rest};
ghost use Rattle.meta_types.specs.Text.{texts_of, text_cmp};
ghost use Rattle.meta_types.specs.Keys.{are_in_order, is_key, is_before};
ghost use Rattle.meta_types.specs.Labels.{AreStored, label_key, value_of, has_label, is_label, put_label, takes_label};
ghost use Rattle.meta_types.specs.Faults.{Refuses, unless};
ghost use Rattle.meta_types.specs.declared.fault.Fault.TheVariants.{InvalidArgument};

use crate::fault::Fault;
use std::alloc::{AllocError, Global};
use std::cmp::Ordering;
use std::marker::Model;
use std::slice;

// The most labels of an object.
const MAX_LABELS: usize = 256;

// The most bytes of a key and its value together.
const MAX_LABEL_BYTES: usize = 4096;

/// The labels of an object, in the order of their keys. No value is empty; there are at most 256.
#[derive(Drop)]
pub struct Labels {
    entries: Vec<(String, String)>,
}

impl Model for Labels {
    ghost use Rattle.std.specs.Prelude.{List, ℕ};
    ghost use Rattle.meta_types.specs.Text.{texts_of};
    ghost use Rattle.meta_types.specs.Labels.{AreStored};

    ghost Value = { List (List ℕ × List ℕ) };

    ghost view = { λ l. texts_of l.entries.items };

    ghost invariant = { λ l. AreStored (texts_of l.entries.items) };
}

impl PartialEq for Labels {
    ghost eq = { λ a b. pointwise (λ x y. bytes_eq x.0 y.0 && bytes_eq x.1 y.1) a b };

    ghost laws = { partial_equiv_from_equiv (lists_equiv (and_equiv (on_equiv (λ x. x.0) nat_list_eq_equiv) (on_equiv (λ x. x.1) nat_list_eq_equiv))) };

    fn eq(&self, other: &Labels) -> bool {
        self.entries == other.entries
    }
}

impl Clone for Labels {
    ghost is_clone = { λ a b. b ≡ a };

    fn clone(&self) -> Result<Labels, AllocError> {
        let entries = self.entries.clone()?;
        Ok(Labels { entries })
    }
}

impl Labels {
    /// No labels. It takes no memory.
    pub fn new(alloc: Global) -> Labels
        ensures { result ≡ [] }
    {
        Labels {
            entries: Vec::new(alloc),
        }
    }

    /// The value of a key, found by halving.
    pub fn get(&self, key: &str) -> Option<&str>
        ensures { option_map (λ s. s.now) result ≡ value_of self.now key.now }
    {
        value_in(&self.entries, key)
    }

    /// How many labels there are.
    pub fn len(&self) -> usize
        ensures len { result ≡ length self.now }
        ensures few { result ≤ 256 }
    {
        self.entries.len()
    }

    /// Whether there is no label.
    pub fn is_empty(&self) -> bool
        ensures { result ≡ (length self.now == 0) }
    {
        self.entries.is_empty()
    }

    /// The keys and values, in the order of the keys.
    pub fn entries(&self) -> &[(String, String)]
        ensures entries { texts_of result.now ≡ self.now }
        ensures stored { AreStored self.now }
    {
        self.entries.as_slice()
    }

    /// Goes over the keys and values, in the order of the keys.
    pub fn iter(&self) -> slice::Iter<'_, (String, String)>
        ensures { texts_of (iter_rest result) ≡ self.now }
    {
        self.entries.iter()
    }

    /// A copy, whose keys and values have bytes of their own.
    pub fn copy(&self, _alloc: Global) -> Result<Labels, Fault>
        ensures fault { Refuses result None }
        ensures ok { IfOk result (λ l. l ≡ self.now) }
    {
        Ok(Labels::clone(self)?)
    }

    /// Whether the label may be put: a caller may ask before it changes anything.
    pub fn takes(&self, key: &str, value: &str) -> bool
        ensures { result ≡ takes_label key.now value.now self.now }
    {
        is_label(key, value) && has_room(self.len(), search(&self.entries, key).is_ok(), value)
    }

    /// Gives a key its value. An empty value takes the label away, which takes no memory.
    pub fn put(&mut self, alloc: Global, key: &str, value: &str) -> Result<(), Fault>
        ensures fault { Refuses result
            (unless (takes_label key.now value.now self.old) InvalidArgument) }
        ensures ok { OnOk result (self.new ≡ put_label key.now value.now self.old) }
        ensures err { OnErr result (self.new ≡ self.old) }
    {
        put_in(&mut self.entries, alloc, key, value)
    }
}

// Where the key is, or where it would go.
fn search(entries: &[(String, String)], key: &str) -> Result<usize, usize>
    requires { IsTrue (are_in_order label_key (texts_of entries.now)) }
    ensures there { is_ok result ≡ has_label (texts_of entries.now) key.now }
    ensures found { IfOk result (λ place. Some place
        ≡ position (λ label. is_key (key.now ∷ []) (label_key label)) (texts_of entries.now)) }
    ensures absent { IfErr result (λ place. place
        ≡ position_or_len (λ label. is_before (key.now ∷ []) (label_key label))
        (texts_of entries.now)) }
{
    entries.binary_search_by(
        |entry: &(String, String)| -> Ordering
            ensures { result ≡ text_cmp (string_bytes entry.now.0) key.entry.now }
        { entry.0.as_str().cmp(key) },
    )
}

fn value_in<'a>(entries: &'a [(String, String)], key: &str) -> Option<&'a str>
    requires { IsTrue (are_in_order label_key (texts_of entries.now)) }
    ensures { option_map (λ s. s.now) result ≡ value_of (texts_of entries.now) key.now }
{
    match search(entries, key) {
        Ok(place) => Some(entries[place].1.as_str()),
        Err(_) => None,
    }
}

fn is_label(key: &str, value: &str) -> bool
    ensures { result ≡ is_label key.now value.now }
{
    value == ""
        || (key != ""
            && value.len() <= MAX_LABEL_BYTES
            && key.len() <= MAX_LABEL_BYTES - value.len())
}

// Whether one more put leaves at most 256 of `count` labels, where the key is there or not.
fn has_room(count: usize, there: bool, value: &str) -> bool
    ensures { result ≡ (bytes_eq value.now [] || there || nat_lt count 256) }
{
    value == "" || there || count < MAX_LABELS
}

// The key stays as it stands, so only the value takes memory.
fn set_value(
    entries: &mut Vec<(String, String)>,
    alloc: Global,
    place: usize,
    value: &str,
) -> Result<(), Fault>
    requires { place < vec_len entries.old }
    ensures fault { Refuses result None }
    ensures ok { OnOk result (texts_of entries.new.items
        ≡ slice_set (texts_of entries.old.items) place
        ((slice_index_or (texts_of entries.old.items) place ([], [])).0, value.now)) }
    ensures err { OnErr result (entries.new.items ≡ entries.old.items) }
{
    let value = String::from_str(alloc, value)?;
    entries[place].1 = value;
    Ok(())
}

fn insert_label(
    entries: &mut Vec<(String, String)>,
    alloc: Global,
    place: usize,
    key: &str,
    value: &str,
) -> Result<(), Fault>
    requires { place ≤ vec_len entries.old }
    ensures fault { Refuses result None }
    ensures ok { OnOk result (texts_of entries.new.items
        ≡ insert (texts_of entries.old.items) place (key.now, value.now)) }
    ensures err { OnErr result (entries.new.items ≡ entries.old.items) }
{
    let key = String::from_str(alloc, key)?;
    let value = String::from_str(alloc, value)?;
    entries.insert(place, (key, value))?;
    Ok(())
}

fn remove_found(entries: &mut Vec<(String, String)>, found: Result<usize, usize>)
    requires { IfOk found (λ place. place < vec_len entries.old) }
    ensures there { IfOk found (λ place. texts_of entries.new.items
        ≡ remove (texts_of entries.old.items) place) }
    ensures absent { OnErr found (texts_of entries.new.items ≡ texts_of entries.old.items) }
{
    if let Ok(place) = found {
        // The label itself isn't wanted.
        let _label = entries.remove(place);
    }
}

fn put_in(
    entries: &mut Vec<(String, String)>,
    alloc: Global,
    key: &str,
    value: &str,
) -> Result<(), Fault>
    requires { IsTrue (are_in_order label_key (texts_of entries.old.items)) }
    ensures fault { Refuses result
        (unless (takes_label key.now value.now (texts_of entries.old.items)) InvalidArgument) }
    ensures ok { OnOk result (texts_of entries.new.items
        ≡ put_label key.now value.now (texts_of entries.old.items)) }
    ensures err { OnErr result (entries.new.items ≡ entries.old.items) }
{
    if !is_label(key, value) {
        return Err(Fault::InvalidArgument);
    }
    let found = search(entries, key);
    if !has_room(entries.len(), found.is_ok(), value) {
        return Err(Fault::InvalidArgument);
    }
    if value == "" {
        remove_found(entries, found);
        return Ok(());
    }
    match found {
        Ok(place) => set_value(entries, alloc, place, value),
        Err(place) => insert_label(entries, alloc, place, key, value),
    }
}
