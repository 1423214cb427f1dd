ghost use Rattle.std.specs.Prelude.{◌≡◌, ◌++◌, ◌∷◌, [], IfOk, OnOk, string_bytes};
ghost use Rattle.vkg_terms.specs.TemplateText.{is_special as special};
ghost use Rattle.vkg_terms.specs.TemplateReader.{at_place, finished, start, state, step, step_escaped, step_fixed, step_hole, with_char, with_fixed, with_hole};

use crate::template::{Part, Template};
use std::alloc::Global;
use std::mem;
use vkg_base::{Items, Memory, Text};

/// Where the character that comes next stands.
#[derive(Clone, Copy)]
pub(crate) enum Place {
    Fixed,
    Hole,
    EscapedFixed,
    EscapedHole,
    Broken,
}

/// A template that is being read: the parts that ended, and the text of the one that did not.
#[derive(Drop)]
pub(crate) struct Reader {
    parts: Template,
    text: String,
    place: Place,
}

impl Reader {
    pub(crate) fn new(alloc: Global) -> Reader
        ensures { state result ≡ start }
    {
        Reader {
            parts: Items::new(alloc),
            text: String::new(alloc),
            place: Place::Fixed,
        }
    }

    pub(crate) fn read(&mut self, c: char) -> Result<(), Memory>
        ensures { OnOk result (state self.new ≡ step (state self.old) c) }
    {
        match self.place {
            Place::Fixed => self.read_fixed(c),
            Place::Hole => self.read_hole(c),
            Place::EscapedFixed => self.read_escaped(c, Place::Fixed),
            Place::EscapedHole => self.read_escaped(c, Place::Hole),
            Place::Broken => Ok(()),
        }
    }

    fn read_fixed(&mut self, c: char) -> Result<(), Memory>
        ensures { OnOk result (state self.new ≡ step_fixed (state self.old) c) }
    {
        match c {
            '\\' => Ok(self.go_to(Place::EscapedFixed)),
            '{' => {
                self.end_fixed()?;
                Ok(self.go_to(Place::Hole))
            }
            '}' => Ok(self.go_to(Place::Broken)),
            _ => self.push(c),
        }
    }

    fn read_hole(&mut self, c: char) -> Result<(), Memory>
        ensures { OnOk result (state self.new ≡ step_hole (state self.old) c) }
    {
        match c {
            '\\' => Ok(self.go_to(Place::EscapedHole)),
            '{' => Ok(self.go_to(Place::Broken)),
            '}' => self.end_hole(),
            _ => self.push(c),
        }
    }

    fn read_escaped(&mut self, c: char, back: Place) -> Result<(), Memory>
        ensures { OnOk result (state self.new ≡ step_escaped (state self.old) c back) }
    {
        if !is_special(c) {
            return Ok(self.go_to(Place::Broken));
        }
        self.push(c)?;
        Ok(self.go_to(back))
    }

    fn go_to(&mut self, place: Place)
        ensures { state self.new ≡ at_place (state self.old) place }
    {
        self.place = place;
    }

    fn push(&mut self, c: char) -> Result<(), Memory>
        ensures { OnOk result (state self.new ≡ with_char (state self.old) c) }
    {
        self.text.push(c)?;
        Ok(())
    }

    fn end_fixed(&mut self) -> Result<(), Memory>
        ensures { OnOk result (state self.new ≡ with_fixed (state self.old)) }
    {
        if self.text.as_str() == "" {
            return Ok(());
        }
        let text = self.take_text();
        self.parts.push(Part::Fixed(text))
    }

    fn end_hole(&mut self) -> Result<(), Memory>
        ensures { OnOk result (state self.new ≡ with_hole (state self.old)) }
    {
        if self.text.as_str() == "" {
            return Ok(self.go_to(Place::Broken));
        }
        let name = self.take_text();
        self.parts.push(Part::Hole(name))?;
        Ok(self.go_to(Place::Fixed))
    }

    fn take_text(&mut self) -> Text
        ensures text { result ≡ string_bytes self.old.text }
        ensures rest { state self.new ≡ record (state self.old) { text = [] } }
    {
        let empty = String::new(self.parts.alloc());
        Text::from_string(mem::replace(&mut self.text, empty))
    }

    /// The template, or none where a brace or a backslash is left open or was bad.
    pub(crate) fn finish(self) -> Result<Option<Template>, Memory>
        ensures { IfOk result (λ t. t ≡ finished (state self)) }
    {
        match self.place {
            Place::Fixed => Ok(Some(self.into_parts()?)),
            _ => Ok(None),
        }
    }

    fn into_parts(mut self) -> Result<Template, Memory>
        ensures { IfOk result (λ t. t ≡ (with_fixed (state self)).parts) }
    {
        self.end_fixed()?;
        let Reader { parts, .. } = self;
        Ok(parts)
    }
}

fn is_special(c: char) -> bool
    ensures { result ≡ special c }
{
    c == '{' || c == '}' || c == '\\'
}
