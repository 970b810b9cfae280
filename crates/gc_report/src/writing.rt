//! Values written as JSON, straight into a text.
ghost use Rattle.std.specs.Prelude.{OnOk};
ghost use Rattle.serde_json.specs.Data.{Data, boolean, string, array, item, no_items};
ghost use Rattle.meta_types.specs.Listings.{listed_text};
ghost use Rattle.gc_report.specs.Reports.{count_data, list_data};
ghost use Rattle.gc_report.specs.Writing.{tokens_of, member_tokens, Adds};

use json::Writer;
use meta_types::{Digest, Listed, Name, ShortName};
use std::alloc::AllocError;

/// What is written as one value.
pub trait WriteJson {
    ghost as_data: { Self → Data };

    /// Writes it behind what `out` holds.
    fn write(&self, out: &mut Writer) -> Result<(), AllocError>
        ensures { OnOk result (Adds out.old out.new (tokens_of (as_data self.now))) };
}

impl WriteJson for bool {
    ghost as_data = { boolean };

    fn write(&self, out: &mut Writer) -> Result<(), AllocError> {
        out.boolean(*self)
    }
}

impl WriteJson for u64 {
    ghost as_data = { count_data };

    fn write(&self, out: &mut Writer) -> Result<(), AllocError> {
        out.u64(*self)
    }
}

impl WriteJson for Digest {
    ghost as_data = { string };

    fn write(&self, out: &mut Writer) -> Result<(), AllocError> {
        let text = self.text();
        out.string(text.as_str())
    }
}

impl WriteJson for Name {
    ghost as_data = { string };

    fn write(&self, out: &mut Writer) -> Result<(), AllocError> {
        out.string(self.text())
    }
}

impl WriteJson for ShortName {
    ghost as_data = { string };

    fn write(&self, out: &mut Writer) -> Result<(), AllocError> {
        out.string(self.text())
    }
}

impl WriteJson for Listed {
    ghost as_data = { λ name. string (listed_text name) };

    fn write(&self, out: &mut Writer) -> Result<(), AllocError> {
        match self {
            Listed::Text(text) => out.string(text.as_str()),
            Listed::Digest(digest) => digest.write(out),
        }
    }
}

impl<A: WriteJson, B: WriteJson> WriteJson for (A, B) {
    ghost as_data = { λ p. array (item (A.as_data p.0) (item (B.as_data p.1) no_items)) };

    fn write(&self, out: &mut Writer) -> Result<(), AllocError> {
        out.begin_array()?;
        self.0.write(out)?;
        self.1.write(out)?;
        out.end_array()
    }
}

impl<A: WriteJson, B: WriteJson, C: WriteJson> WriteJson for (A, B, C) {
    ghost as_data = { λ t. array (item (A.as_data t.0) (item (B.as_data t.1) (item (C.as_data t.2) no_items))) };

    fn write(&self, out: &mut Writer) -> Result<(), AllocError> {
        out.begin_array()?;
        self.0.write(out)?;
        self.1.write(out)?;
        self.2.write(out)?;
        out.end_array()
    }
}

impl<T: WriteJson> WriteJson for Vec<T> {
    ghost as_data = { λ v. list_data T.as_data v.items };

    fn write(&self, out: &mut Writer) -> Result<(), AllocError> {
        write_list(out, self)
    }
}

/// Writes a list, each item in its turn.
pub fn write_list<T: WriteJson>(out: &mut Writer, list: &[T]) -> Result<(), AllocError>
    ensures { OnOk result (Adds out.old out.new (tokens_of (list_data T.as_data list.now))) }
{
    out.begin_array()?;
    for item in list {
        item.write(out)?;
    }
    out.end_array()
}

/// Writes a member of an object.
pub fn write_member<T: WriteJson>(out: &mut Writer, key: &str, value: &T) -> Result<(), AllocError>
    ensures { OnOk result (Adds out.old out.new (member_tokens key.now (T.as_data value.now))) }
{
    out.key(key)?;
    value.write(out)
}
