//! A map that is being read.

ghost use Rattle.std.specs.Prelude.{◌≡◌, [], Ok, Err, OnOk, IfErr};
ghost use Rattle.version_map.specs.Maps.{with_listed, with_added, with_saying, with_line, said_in, nothing_said, IfRefused, object_names};
ghost use Rattle.version_map.specs.Lines.{line_view};
ghost use Rattle.version_map.specs.Drafts.{ArePairs, IsDraft, drafted};

use crate::lines::{Line, line_of};
use crate::map::{Added, Listed, Map, MapFault};
use crate::names::Names;
use rvt_num::Kind;
use rvt_tree::Name;
use std::alloc::Global;

const BAD_LINE: u16 = 41;

const NAME_TWICE: u16 = 42;

/// Pairs of names, and an index for each side.
#[derive(Drop)]
pub struct Pairs<'a> {
    pub entries: Vec<Listed>,
    pub olds: Names<'a>,
    pub news: Names<'a>,
}

/// Added objects, and an index of their names.
#[derive(Drop)]
pub struct Objects<'a> {
    pub entries: Vec<Added>,
    pub names: Names<'a>,
}

/// What the lines so far say.
#[derive(Drop)]
pub struct Draft<'a> {
    pub alloc: Global,
    pub functions: Pairs<'a>,
    pub globals: Pairs<'a>,
    pub objects: Objects<'a>,
}

impl<'a> Pairs<'a> {
    fn new(alloc: Global) -> Pairs<'a>
        ensures entries { result.entries.items ≡ [] }
        ensures pairs { ArePairs result }
    {
        Pairs {
            entries: Vec::new(alloc),
            olds: Names::new(alloc),
            news: Names::new(alloc),
        }
    }

    /// Adds a pair that the line says.
    fn add(
        &mut self,
        alloc: Global,
        line: u32,
        old: &'a [u8],
        new: &'a [u8],
    ) -> Result<(), MapFault>
        requires { ArePairs self.old }
        ensures added { OnOk result (with_listed self.old.entries.items (record { line = line; old = old.now; new = new.now }) ≡ Ok self.new.entries.items) }
        ensures pairs { OnOk result (ArePairs self.new) }
        ensures refused { IfErr result (IfRefused (λ refusal. with_listed self.old.entries.items (record { line = line; old = old.now; new = new.now }) ≡ Err refusal)) }
    {
        if !self.olds.add(old)? {
            return Err(MapFault::Refused(line, NAME_TWICE));
        }
        if !self.news.add(new)? {
            return Err(MapFault::Refused(line, NAME_TWICE));
        }
        self.entries.push(Listed {
            line,
            old: Name::new(alloc, old)?,
            new: Name::new(alloc, new)?,
        })?;
        Ok(())
    }
}

impl<'a> Objects<'a> {
    /// Adds an object that the line says.
    fn add(
        &mut self,
        alloc: Global,
        line: u32,
        name: &'a [u8],
        kind: Kind,
        count: u32,
    ) -> Result<(), MapFault>
        requires { self.old.names ≡ object_names self.old.entries.items }
        ensures added { OnOk result (with_added self.old.entries.items (record { line = line; name = name.now; kind = kind; count = count }) ≡ Ok self.new.entries.items) }
        ensures names { OnOk result (self.new.names ≡ object_names self.new.entries.items) }
        ensures refused { IfErr result (IfRefused (λ refusal. with_added self.old.entries.items (record { line = line; name = name.now; kind = kind; count = count }) ≡ Err refusal)) }
    {
        if !self.names.add(name)? {
            return Err(MapFault::Refused(line, NAME_TWICE));
        }
        self.entries.push(Added {
            line,
            name: Name::new(alloc, name)?,
            kind,
            count,
        })?;
        Ok(())
    }
}

impl<'a> Draft<'a> {
    pub fn new(alloc: Global) -> Draft<'a>
        ensures draft { IsDraft result }
        ensures nothing { drafted result ≡ nothing_said }
    {
        Draft {
            alloc,
            functions: Pairs::new(alloc),
            globals: Pairs::new(alloc),
            objects: Objects {
                entries: Vec::new(alloc),
                names: Names::new(alloc),
            },
        }
    }

    /// Reads the line of this number.
    pub fn read(&mut self, number: u32, text: &'a [u8]) -> Result<(), MapFault>
        requires { IsDraft self.old }
        ensures said { OnOk result (with_line (drafted self.old) number text.now ≡ Ok (drafted self.new)) }
        ensures draft { OnOk result (IsDraft self.new) }
        ensures refused { IfErr result (IfRefused (λ refusal. with_line (drafted self.old) number text.now ≡ Err refusal)) }
    {
        match line_of(text) {
            Some(line) => self.add(number, line),
            None => Err(MapFault::Refused(number, BAD_LINE)),
        }
    }

    fn add(&mut self, number: u32, line: Line<'a>) -> Result<(), MapFault>
        requires { IsDraft self.old }
        ensures said { OnOk result (with_saying (drafted self.old) number (line_view line.entry) ≡ Ok (drafted self.new)) }
        ensures draft { OnOk result (IsDraft self.new) }
        ensures refused { IfErr result (IfRefused (λ refusal. with_saying (drafted self.old) number (line_view line.entry) ≡ Err refusal)) }
    {
        match line {
            Line::Nothing => Ok(()),
            Line::Functions(old, new) => self.functions.add(self.alloc, number, old, new),
            Line::Globals(old, new) => self.globals.add(self.alloc, number, old, new),
            Line::Object(name, kind, count) => {
                self.objects.add(self.alloc, number, name, kind, count)
            }
        }
    }

    /// What was said.
    pub fn finish(self) -> Map
        ensures { said_in result ≡ drafted self.entry }
    {
        let Draft {
            functions,
            globals,
            objects,
            ..
        } = self;
        Map {
            functions: functions.entries,
            globals: globals.entries,
            objects: objects.entries,
        }
    }
}
