//! What a question asks for.
ghost use Rattle.std.specs.Prelude.{◌≡◌, ◌&&◌, length, Some, is_some, bytes_eq, get_or, None};
ghost use Rattle.std.specs.List.{list_any};
ghost use Rattle.meta_types.specs.Paths.{things};
ghost use Rattle.meta_types.specs.Explanations.{is_of};
ghost use Rattle.meta_types.specs.declared.object.Object.TheVariants.{Image, Container, Lease, Held};
ghost use Rattle.explaining.specs.ThingRows.{thing_of};
ghost use Rattle.explaining.specs.Questions.{asked_by};

use crate::thing_row::{ThingRow, is_resource, namespace_of};
use meta_types::{Mode, Name, Object, ShortName};

/// The object of a namespace whose path is asked for.
#[derive(Clone, Copy)]
pub(crate) struct Question<'a> {
    pub(crate) ns: &'a ShortName,
    pub(crate) object: &'a Object,
}

fn is_image(name: &Name, thing: ThingRow<'_>) -> bool
    ensures { result ≡ is_of (Image name.now) (thing_of thing.entry) }
{
    match thing {
        ThingRow::Image(row) => row.name.text() == name.text(),
        _ => false,
    }
}

fn is_container(name: &Name, thing: ThingRow<'_>) -> bool
    ensures { result ≡ is_of (Container name.now) (thing_of thing.entry) }
{
    match thing {
        ThingRow::Container(row) => row.name.text() == name.text(),
        _ => false,
    }
}

fn is_lease(id: &Name, thing: ThingRow<'_>) -> bool
    ensures { result ≡ is_of (Lease id.now) (thing_of thing.entry) }
{
    match thing {
        ThingRow::Lease(row) => row.id().text() == id.text(),
        _ => false,
    }
}

fn is_of(object: &Object, thing: ThingRow<'_>) -> bool
    ensures { result ≡ is_of object.now (thing_of thing.entry) }
{
    match object {
        Object::Image(name) => is_image(name, thing),
        Object::Container(name) => is_container(name, thing),
        Object::Lease(id) => is_lease(id, thing),
        Object::Held(resource) => {
            is_resource(resource, Mode::Full, thing) || is_resource(resource, Mode::Flat, thing)
        }
    }
}

/// Whether a question asks for a thing: one of its object, in its namespace.
pub(crate) fn asks_for(question: Question<'_>, thing: ThingRow<'_>) -> bool
    ensures { result ≡ asked_by question.entry (thing_of thing.entry) }
{
    namespace_of(thing) == question.ns.text() && is_of(question.object, thing)
}
