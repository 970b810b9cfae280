//! Objects that a question names.
ghost use Rattle.std.specs.Prelude.{◌≡◌, IfOk, Some, None, is_some, option_map};
ghost use Rattle.meta_types.specs.Text.{is_name};
ghost use Rattle.meta_types.specs.Explanations.{object_of};
ghost use Rattle.meta_types.specs.Resources.{resource_of};
ghost use Rattle.meta_types.specs.Faults.{Refuses, unless};
ghost use Rattle.meta_types.specs.declared.fault.Fault.TheVariants.{InvalidArgument};
ghost use Rattle.meta_types.specs.declared.object.Object.TheVariants.{Held};

use crate::fault::Fault;
use crate::name::Name;
use crate::resource::Resource;
use std::alloc::Global;

/// A row by its kind and its name: an image, a container, a lease, or what a lease may hold.
#[derive(Drop)]
pub enum Object {
    Image(Name),
    Container(Name),
    Lease(Name),
    Held(Resource),
}

impl Object {
    /// Reads an object: `kind` is `images`, `containers`, `leases`, `content`, `ingests`, or
    /// `snapshots/` and a snapshotter.
    pub fn read(alloc: Global, kind: &str, name: &str) -> Result<Object, Fault>
        ensures fault { Refuses result
            (unless (is_some (object_of kind.now name.now)) InvalidArgument) }
        ensures ok { IfOk result (λ object. object_of kind.now name.now ≡ Some object) }
    {
        if kind == "images" {
            let name = Name::read(alloc, name)?;
            return Ok(Object::Image(name));
        }
        if kind == "containers" {
            let name = Name::read(alloc, name)?;
            return Ok(Object::Container(name));
        }
        if kind == "leases" {
            let name = Name::read(alloc, name)?;
            return Ok(Object::Lease(name));
        }
        read_held(alloc, kind, name)
    }
}

fn read_held(alloc: Global, kind: &str, name: &str) -> Result<Object, Fault>
    ensures fault { Refuses result
        (unless (is_some (option_map Held (resource_of kind.now name.now))) InvalidArgument) }
    ensures ok { IfOk result (λ object. option_map Held (resource_of kind.now name.now)
        ≡ Some object) }
{
    let resource = Resource::read(alloc, kind, name)?;
    Ok(Object::Held(resource))
}
