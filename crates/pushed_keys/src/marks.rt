//! The marks of a table, in parts.

ghost use Rattle.std.specs.Prelude.{◌≡◌, ◌<◌, ◌++◌, ◌∷◌, ◌-◌, ◌^◌, [], length, min};
ghost use Rattle.std.specs.Prelude.{IfOk, IfSome, MatchOption, OnOk};
ghost use Rattle.std.specs.Arc.{arc_value};
ghost use Rattle.pushed_keys.specs.Packed.{in_parts, lent, marks_of};

use crate::parts::{Lent, Lists, PART, Part};
use agg_types::NoMemory;
use std::alloc::Global;
use std::marker::Model;
use std::sync::Arc;

/// The marks of a table, in parts that other lists of marks may have too.
///
/// Contracts see the list of the marks.
#[derive(Drop)]
pub struct Marks {
    parts: Vec<Arc<Part>>,
    // How many marks these are, at most 2^64 - 1.
    len: u64,
}

impl Model for Marks {
    ghost use Rattle.std.specs.Prelude.{◌≡◌, ◌-◌, ◌^◌, List, length, min};
    ghost use Rattle.pushed_keys.specs.declared.told.Mark.{Mark};

    ghost Value = { List Mark };

    ghost use Rattle.pushed_keys.specs.Packed.{in_parts};

    ghost view = { λ marks. in_parts marks.parts.items };

    ghost invariant = { λ marks. marks.len
        ≡ min (length (in_parts marks.parts.items)) (2 ^ 64 - 1) };
}

impl Marks {
    /// How many marks these are; 2^64 - 1 where there are more. It is kept, not counted.
    pub fn len(&self) -> u64
        ensures { result ≡ min (length self.now) (2 ^ 64 - 1) }
    {
        self.len
    }

    /// Lends the marks.
    pub fn lend(&self) -> Packed<'_>
        ensures { marks_of result ≡ self.now }
    {
        Packed {
            front: Lists::none(),
            parts: self.parts.as_slice(),
        }
    }
}

/// Packed marks that are lent, without some at their front: what is left of a part, and the parts
/// behind it.
#[derive(Clone, Copy)]
pub struct Packed<'a> {
    front: Lists<'a>,
    parts: &'a [Arc<Part>],
}

impl<'a> Packed<'a> {
    /// No marks.
    pub(crate) fn none() -> Packed<'a>
        ensures { marks_of result ≡ [] }
    {
        Packed {
            front: Lists::none(),
            parts: &[],
        }
    }

    /// The first mark, and those behind it.
    #[inline]
    pub fn split_first(self) -> Option<(Lent<'a>, Packed<'a>)>
        ensures { MatchOption result (marks_of self.entry ≡ [])
            (λ found. marks_of self.entry ≡ lent found.0 ∷ marks_of found.1) }
    {
        match self.front.split_first() {
            Some((mark, front)) => Some((
                mark,
                Packed {
                    front,
                    parts: self.parts,
                },
            )),
            None => first_of(self.parts),
        }
    }
}

impl<'a> Packed<'a> {
    /// The first part, where no mark is left of the one before it, and what stands behind it.
    #[inline]
    pub(crate) fn split_part(self) -> Option<(&'a Arc<Part>, Packed<'a>)>
        ensures marks { IfSome result (λ found. marks_of self.entry
            ≡ arc_value found.0.now ++ marks_of found.1) }
        ensures fewer { IfSome result (λ found. length found.1.parts.now
            < length self.entry.parts.now) }
    {
        if self.front.split_first().is_some() {
            return None;
        }
        let [part, parts @ ..] = self.parts else {
            return None;
        };
        Some((
            part,
            Packed {
                front: Lists::none(),
                parts,
            },
        ))
    }
}

// The first mark of parts, and those behind it.
fn first_of<'a>(parts: &'a [Arc<Part>]) -> Option<(Lent<'a>, Packed<'a>)>
    ensures { MatchOption result (in_parts parts.now ≡ [])
        (λ found. in_parts parts.now ≡ lent found.0 ∷ marks_of found.1) }
{
    let mut left = parts;
    while let [part, parts @ ..] = left {
        if let Some((mark, front)) = part.lend().split_first() {
            return Some((mark, Packed { front, parts }));
        }
        left = parts;
    }
    None
}

/// Marks that are being put together.
///
/// Contracts see the list of the marks.
#[derive(Drop)]
pub struct Packing {
    parts: Vec<Arc<Part>>,
    fresh: Part,
}

impl Model for Packing {
    ghost use Rattle.std.specs.Prelude.{◌++◌, List};
    ghost use Rattle.pushed_keys.specs.declared.told.Mark.{Mark};

    ghost Value = { List Mark };

    ghost use Rattle.pushed_keys.specs.Packed.{in_parts};

    ghost view = { λ packing. in_parts packing.parts.items ++ packing.fresh };
}

impl Packing {
    /// No marks. Takes no memory.
    pub fn new(alloc: Global) -> Packing
        ensures { result ≡ [] }
    {
        Packing {
            parts: Vec::new(alloc),
            fresh: Part::new(alloc),
        }
    }

    /// Adds a mark behind the others. A key of 32,768 bytes meets `NoMemory` too, but no key of the
    /// peers protocol is that long.
    #[inline]
    pub fn push(&mut self, key: &[u8], put: u64, is_in: bool) -> Result<(), NoMemory>
        ensures { OnOk result (self.new
            ≡ self.old ++ record { key = key.now; put = put; is_in = is_in } ∷ []) }
    {
        if self.fresh.len() >= PART || !self.fresh.has_room(put) {
            close(&mut self.parts, &mut self.fresh)?;
        }
        self.fresh.push(key, put, is_in)
    }

    /// Whether a part may be taken over whole, rather than joined to the marks before it.
    #[inline]
    pub fn is_apart(&self, part: &Part) -> bool {
        self.fresh.len() == 0 || self.fresh.len().saturating_add(part.len()) > PART
    }

    /// Adds a part of its own.
    pub fn add(&mut self, part: Part) -> Result<(), NoMemory>
        ensures { OnOk result (self.new ≡ self.old ++ part) }
    {
        close(&mut self.parts, &mut self.fresh)?;
        let part = Arc::new(*self.parts.allocator(), part)?;
        self.parts.push(part)?;
        Ok(())
    }

    /// Takes over a part that another list of marks has too.
    pub fn take_over(&mut self, part: &Arc<Part>) -> Result<(), NoMemory>
        ensures { OnOk result (self.new ≡ self.old ++ arc_value part.now) }
    {
        close(&mut self.parts, &mut self.fresh)?;
        self.parts.push(Arc::try_clone(part)?)?;
        Ok(())
    }

    /// The marks.
    pub fn finish(self) -> Result<Marks, NoMemory>
        ensures { IfOk result (λ marks. marks ≡ self) }
    {
        let Packing {
            mut parts,
            mut fresh,
        } = self;
        close(&mut parts, &mut fresh)?;
        let mut len = 0;
        let mut left = parts.as_slice();
        while let [part, behind @ ..] = left {
            len = (part.len() as u64).saturating_add(len);
            left = behind;
        }
        Ok(Marks { parts, len })
    }
}

// Ends the part that is being put together, if it has marks.
fn close(parts: &mut Vec<Arc<Part>>, fresh: &mut Part) -> Result<(), NoMemory>
    ensures parts { OnOk result (in_parts parts.new.items ≡ in_parts parts.old.items ++ fresh.old) }
    ensures fresh { OnOk result (fresh.new ≡ []) }
{
    if fresh.lend().split_first().is_none() {
        return Ok(());
    }
    let part = Arc::new(*parts.allocator(), fresh.copied()?)?;
    parts.push(part)?;
    fresh.clear();
    Ok(())
}
