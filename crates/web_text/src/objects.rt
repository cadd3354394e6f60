//! JSON, a value at a time.

use agg_types::{KeyKind, NoMemory};
use json::Writer;
use key_text::append_key;
use std::alloc::Global;
use std::str;

/// JSON on its way to text. Who writes nests it. After `NoMemory` the text is of no use.
pub struct Json {
    alloc: Global,
    writer: Writer,
}

impl Drop for Json {
    fn drop(self) {
        let Json {
            alloc: _,
            writer: _,
        } = self;
    }
}

impl Json {
    /// No text yet.
    pub fn new(alloc: Global) -> Json {
        Json {
            alloc,
            writer: Writer::new(Vec::new(alloc)),
        }
    }

    /// The text.
    pub fn into_text(self) -> Vec<u8> {
        let Json { alloc: _, writer } = self;
        writer.into_inner()
    }

    /// The outermost object begins, or one in a list.
    pub fn begin_object(&mut self) -> Result<(), NoMemory> {
        Ok(self.writer.begin_object()?)
    }

    /// The object that was begun last ends.
    pub fn end_object(&mut self) -> Result<(), NoMemory> {
        Ok(self.writer.end_object()?)
    }

    /// A member of an object begins, which is a list.
    pub fn begin_list(&mut self, name: &str) -> Result<(), NoMemory> {
        self.writer.key(name)?;
        Ok(self.writer.begin_array()?)
    }

    /// The list that was begun last ends.
    pub fn end_list(&mut self) -> Result<(), NoMemory> {
        Ok(self.writer.end_array()?)
    }

    /// A member of an object begins, which is an object.
    pub fn begin_member(&mut self, name: &str) -> Result<(), NoMemory> {
        self.writer.key(name)?;
        self.begin_object()
    }

    /// A member that is a number.
    pub fn number(&mut self, name: &str, value: u64) -> Result<(), NoMemory> {
        self.writer.key(name)?;
        Ok(self.writer.u64(value)?)
    }

    /// A member that is a sum, or the greatest number of 64 bits where it is greater.
    pub fn sum(&mut self, name: &str, value: u128) -> Result<(), NoMemory> {
        self.number(name, u64::try_from(value).unwrap_or(u64::MAX))
    }

    /// A member that is a number, or null.
    pub fn number_if(&mut self, name: &str, value: Option<u64>) -> Result<(), NoMemory> {
        match value {
            Some(value) => self.number(name, value),
            None => self.null(name),
        }
    }

    /// A member that is null.
    pub fn null(&mut self, name: &str) -> Result<(), NoMemory> {
        self.writer.key(name)?;
        Ok(self.writer.null()?)
    }

    /// A member that is true or false.
    pub fn truth(&mut self, name: &str, value: bool) -> Result<(), NoMemory> {
        self.writer.key(name)?;
        Ok(self.writer.boolean(value)?)
    }

    /// A member that is a text: bytes of ASCII, as names have. Null where they are no UTF-8.
    pub fn text(&mut self, name: &str, value: &[u8]) -> Result<(), NoMemory> {
        self.writer.key(name)?;
        self.item(value)
    }

    /// A text in a list. Null where the bytes are no UTF-8.
    pub fn item(&mut self, value: &[u8]) -> Result<(), NoMemory> {
        match str::from_utf8(value) {
            Ok(text) => Ok(self.writer.string(text)?),
            Err(_) => Ok(self.writer.null()?),
        }
    }

    /// A number in a list.
    pub fn number_item(&mut self, value: u64) -> Result<(), NoMemory> {
        Ok(self.writer.u64(value)?)
    }

    /// A member that is a key, as answers to admins write it.
    pub fn key(&mut self, name: &str, kind: KeyKind, key: &[u8]) -> Result<(), NoMemory> {
        self.writer.key(name)?;
        self.key_item(kind, key)
    }

    /// A key in a list.
    pub fn key_item(&mut self, kind: KeyKind, key: &[u8]) -> Result<(), NoMemory> {
        let mut text = Vec::new(self.alloc);
        append_key(kind, key, &mut text)?;
        self.item(text.as_slice())
    }
}
