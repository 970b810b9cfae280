//! A set of names of one kind, each found by a hash; one name alone takes no table.
ghost use Rattle.std.specs.Prelude.{◌≡◌, ◌∷◌, [], ◌==◌, map, false, None, IfOk, OnOk, OnErr, length};
ghost use Rattle.meta_types.specs.Keys.{has_row, add_row, remove_row};
ghost use Rattle.meta_types.specs.Faults.{Refuses, least_of};
ghost use Rattle.row_tables.specs.Arrived.{by_name, sorted};
ghost use Rattle.object_tables.specs.HeldNames.{names_held};

use meta_types::Fault;
use row_tables::{Named, NamedRow, RowTable, Seed, in_key_order};
use std::alloc::Global;
use std::boxed::Box;
use std::marker::Model;
use std::mem;

/// Names in arrival order, each found by a hash; contracts see them by their bytes.
#[derive(Drop)]
pub(crate) struct Names<N: Named + NamedRow<N>> {
    alloc: Global,
    held: Held<N>,
}

impl<N: Named + NamedRow<N>> Model for Names<N> {
    ghost use Rattle.std.specs.Prelude.{List};
    ghost use Rattle.row_tables.specs.Arrived.{by_name, sorted};
    ghost use Rattle.object_tables.specs.HeldNames.{names_held};

    ghost Value = { List N };

    ghost view = { λ t. sorted (by_name N.texts_of N.name_of) (names_held t.held) };
}

// What a set holds. Most snapshots that have a child have one: its name stands in place. Several
// have a table, which lies apart.
#[derive(Drop)]
enum Held<N: Named + NamedRow<N>> {
    Nothing,
    One(N),
    Several(Several<N>),
}

// A table of names, in room of its own.
#[derive(Drop)]
struct Several<N: Named + NamedRow<N>> {
    table: Box<RowTable<N, N>, Global>,
}

impl<N: Named + NamedRow<N>> Model for Several<N> {
    ghost use Rattle.std.specs.Prelude.{List};
    ghost use Rattle.std.specs.Box.{box_value};

    ghost Value = { List N };

    ghost view = { λ t. box_value t.table };
}

impl<N: Named + NamedRow<N>> Several<N> {
    // Two names that are no one.
    fn two(alloc: Global, seed: Seed, first: N, second: N) -> Result<Several<N>, Fault>
        requires { has_row (by_name N.texts_of N.name_of) (N.texts_of (N.name_of second))
            (first ∷ []) ≡ false }
        ensures fault { Refuses result None }
        ensures ok { IfOk result (λ names. sorted (by_name N.texts_of N.name_of) names
            ≡ add_row (by_name N.texts_of N.name_of) second (first ∷ [])) }
    {
        let mut table = RowTable::new(alloc, seed);
        table.add(first)?;
        table.add(second)?;
        let table = Box::new(alloc, table)?;
        Ok(Several { table })
    }

    fn table(&self) -> &RowTable<N, N>
        ensures { result.now ≡ self.now }
    {
        self.table.as_ref()
    }

    fn copy(&self, alloc: Global) -> Result<Several<N>, Fault>
        ensures fault { Refuses result None }
        ensures ok { IfOk result (λ names. names ≡ self.now) }
    {
        let table = self.table().copy(alloc)?;
        let table = Box::new(alloc, table)?;
        Ok(Several { table })
    }

    fn add(&mut self, name: N) -> Result<(), Fault>
        ensures fault { Refuses result
            (least_of false false (has_row (by_name N.texts_of N.name_of) (N.texts_of (N.name_of name))
            (sorted (by_name N.texts_of N.name_of) self.old)) false) }
        ensures ok { OnOk result (sorted (by_name N.texts_of N.name_of) self.new
            ≡ add_row (by_name N.texts_of N.name_of) name (sorted (by_name N.texts_of N.name_of) self.old)) }
        ensures err { OnErr result (self.new ≡ self.old) }
    {
        self.table.as_mut().add_new(name)
    }

    fn remove(&mut self, name: &N)
        ensures { sorted (by_name N.texts_of N.name_of) self.new
            ≡ remove_row (by_name N.texts_of N.name_of) (N.texts_of name.now)
            (sorted (by_name N.texts_of N.name_of) self.old) }
    {
        // The name itself isn't wanted.
        let _gone = self.table.as_mut().take(name);
    }
}

impl<N: Named + NamedRow<N>> Names<N> {
    /// No name.
    pub(crate) fn new(alloc: Global) -> Names<N>
        ensures { result ≡ [] }
    {
        Names {
            alloc,
            held: Held::Nothing,
        }
    }

    /// A copy, which shares the texts.
    pub(crate) fn copy(&self, alloc: Global) -> Result<Names<N>, Fault>
        ensures fault { Refuses result None }
        ensures ok { IfOk result (λ names. names ≡ self.now) }
    {
        let held = copy_held(&self.held, alloc)?;
        Ok(Names { alloc, held })
    }

    /// How many names there are.
    pub(crate) fn len(&self) -> usize
        ensures { result ≡ length self.now }
    {
        match &self.held {
            Held::Nothing => 0,
            Held::One(_) => 1,
            Held::Several(names) => names.table().len(),
        }
    }

    /// Whether there is no name.
    pub(crate) fn is_empty(&self) -> bool
        ensures { result ≡ (length self.now == 0) }
    {
        self.len() == 0
    }

    /// Whether the name is there.
    pub(crate) fn has(&self, name: &N) -> bool
        ensures { result ≡ has_row (by_name N.texts_of N.name_of) (N.texts_of name.now) self.now }
    {
        match &self.held {
            Held::Nothing => false,
            Held::One(one) => *name == *one.name(),
            Held::Several(names) => names.table().has(name),
        }
    }

    /// The names, by their bytes.
    pub(crate) fn list(&self, alloc: Global) -> Result<Vec<&N>, Fault>
        ensures fault { Refuses result None }
        ensures ok { IfOk result (λ names. map (λ name. name.now) names.items ≡ self.now) }
    {
        match &self.held {
            Held::Nothing => Ok(Vec::new(alloc)),
            Held::One(one) => alone(alloc, one),
            Held::Several(names) => in_key_order(alloc, names.table()),
        }
    }

    /// Adds a name where it isn't there. A table that it makes has the seed.
    pub(crate) fn add(&mut self, seed: Seed, name: N) -> Result<(), Fault>
        ensures fault { Refuses result
            (least_of false false (has_row (by_name N.texts_of N.name_of) (N.texts_of (N.name_of name)) self.old) false) }
        ensures ok { OnOk result (self.new ≡ add_row (by_name N.texts_of N.name_of) name self.old) }
        ensures err { OnErr result (self.new ≡ self.old) }
    {
        let held = mem::replace(&mut self.held, Held::Nothing);
        let (held, added) = with_name(held, self.alloc, seed, name);
        self.held = held;
        added
    }

    /// Removes a name where it is there.
    pub(crate) fn remove(&mut self, name: &N)
        ensures { self.new ≡ remove_row (by_name N.texts_of N.name_of) (N.texts_of name.now) self.old }
    {
        let held = mem::replace(&mut self.held, Held::Nothing);
        self.held = without_name(held, name);
    }
}

fn copy_held<N: Named + NamedRow<N>>(held: &Held<N>, alloc: Global) -> Result<Held<N>, Fault>
    ensures fault { Refuses result None }
    ensures ok { IfOk result (λ copy. names_held copy ≡ names_held held.now) }
{
    match held {
        Held::Nothing => Ok(Held::Nothing),
        Held::One(one) => {
            let one = one.copy_row(alloc)?;
            Ok(Held::One(one))
        }
        Held::Several(names) => {
            let names = names.copy(alloc)?;
            Ok(Held::Several(names))
        }
    }
}

// A list of one name.
fn alone<N>(alloc: Global, one: &N) -> Result<Vec<&N>, Fault>
    ensures fault { Refuses result None }
    ensures ok { IfOk result (λ names. map (λ name. name.now) names.items ≡ one.now ∷ []) }
{
    let mut names = Vec::with_capacity(alloc, 1)?;
    names.push(one)?;
    Ok(names)
}

// What is held with a name more, and whether the name was added.
fn with_name<N: Named + NamedRow<N>>(
    held: Held<N>,
    alloc: Global,
    seed: Seed,
    name: N,
) -> (Held<N>, Result<(), Fault>)
    ensures fault { Refuses result.1 (least_of false false (has_row (by_name N.texts_of N.name_of)
        (N.texts_of (N.name_of name)) (sorted (by_name N.texts_of N.name_of) (names_held held)))
        false) }
    ensures ok { OnOk result.1 (sorted (by_name N.texts_of N.name_of) (names_held result.0)
        ≡ add_row (by_name N.texts_of N.name_of) name
        (sorted (by_name N.texts_of N.name_of) (names_held held))) }
    ensures err { OnErr result.1 (names_held result.0 ≡ names_held held) }
{
    match held {
        Held::Nothing => (Held::One(name), Ok(())),
        Held::One(first) => with_second(first, alloc, seed, name),
        Held::Several(mut names) => {
            let added = names.add(name);
            (Held::Several(names), added)
        }
    }
}

// Where the second name finds no memory, the first stays as it was.
fn with_second<N: Named + NamedRow<N>>(
    first: N,
    alloc: Global,
    seed: Seed,
    name: N,
) -> (Held<N>, Result<(), Fault>)
    ensures fault { Refuses result.1 (least_of false false (has_row (by_name N.texts_of N.name_of)
        (N.texts_of (N.name_of name)) (first ∷ [])) false) }
    ensures ok { OnOk result.1 (sorted (by_name N.texts_of N.name_of) (names_held result.0)
        ≡ add_row (by_name N.texts_of N.name_of) name (first ∷ [])) }
    ensures err { OnErr result.1 (names_held result.0 ≡ first ∷ []) }
{
    if *name.name() == *first.name() {
        return (Held::One(first), Err(Fault::AlreadyExists));
    }
    let Ok(copy) = first.copy_row(alloc) else {
        return (Held::One(first), Err(Fault::OutOfMemory));
    };
    match Several::two(alloc, seed, copy, name) {
        Ok(names) => (Held::Several(names), Ok(())),
        Err(_) => (Held::One(first), Err(Fault::OutOfMemory)),
    }
}

// What is held without a name.
fn without_name<N: Named + NamedRow<N>>(held: Held<N>, name: &N) -> Held<N>
    ensures { sorted (by_name N.texts_of N.name_of) (names_held result)
        ≡ remove_row (by_name N.texts_of N.name_of) (N.texts_of name.now)
        (sorted (by_name N.texts_of N.name_of) (names_held held)) }
{
    match held {
        Held::Nothing => Held::Nothing,
        Held::One(one) => without_one(one, name),
        Held::Several(mut names) => {
            names.remove(name);
            Held::Several(names)
        }
    }
}

fn without_one<N: Named + NamedRow<N>>(one: N, name: &N) -> Held<N>
    ensures { names_held result ≡ remove_row (by_name N.texts_of N.name_of) (N.texts_of name.now)
        (one ∷ []) }
{
    if *name == *one.name() {
        Held::Nothing
    } else {
        Held::One(one)
    }
}
