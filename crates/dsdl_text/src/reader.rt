ghost use Rattle.std.specs.Prelude.{◌≡◌, ◌<◌, ◌≤◌, ◌+◌, ◌++◌, ◌∷◌, [], List, Err, OnErr, OnOk, Some, is_some, length, map};
ghost use Rattle.std.specs.List.{list_any};
ghost use Rattle.std.specs.Option.{option_to_list};
ghost use Rattle.std.specs.Str.{bytes_eq};
ghost use Rattle.dsdl_text.specs.Layout.{DataType};
ghost use Rattle.dsdl_text.specs.Sections.{count_of, field_layout, last_part, type_of};
ghost use Rattle.dsdl_text.specs.declared.line.Line.{Line as LineValue};
ghost use Rattle.dsdl_text.specs.Lines.{Reads};
ghost use Rattle.dsdl_text.specs.Text as texts;

use crate::fault::LineFault;
use crate::line::{Line, Name, Shape};
use crate::parse::read_line;
use crate::section::{Field, Section, has_section, kind_named, number_bits};
use crate::texts::Texts;
use arrayvec::ArrayVec;

/// A text that is read line by line.
#[derive(Drop)]
pub struct TextReader {
    /// The types in front of the latest one.
    earlier: ArrayVec<Section, 16>,

    /// The type that the lines go into.
    latest: Option<Section>,

    /// The names in the part that the lines go into, of fields and constants; empty for a void.
    names: ArrayVec<Name, 32>,

    // There are 16 types at most, and each field has its name.
    ghost room: { length earlier.items + count_of latest ≤ 16 },
    ghost named: { length (last_part latest) ≤ length names.items },
}

impl TextReader {
    ghost use Rattle.dsdl_text.specs.Reader.{data_types, text_of};
    ghost use Rattle.dsdl_text.specs.Text.{no_text, types_in, Answers};

    /// The reader of a text that begins.
    pub fn new() -> TextReader
        ensures { text_of result ≡ no_text }
    {
        TextReader {
            earlier: ArrayVec::new(),
            latest: None,
            names: ArrayVec::new(),
        }
    }

    /// Takes the next line, without its line feed. A fault leaves the reader unchanged.
    ///
    /// Of several faults of a line the first one is told, in the order of docs/FORMATS.md. `Err(Form)` comes for a line
    /// without a form (`unread`).
    pub fn line(&mut self, line: &[u8]) -> Result<(), LineFault>
        ensures reads { (value : LineValue) → Reads value line.now →
            Answers (text_of self.old) value result (text_of self.new) }
        ensures unread { ((value : LineValue) → Reads value line.now → ⊥) →
            (result ≡ Err LineFault.Form) × (self.new ≡ self.old) }
        ensures form { OnOk result ((value : LineValue) × Reads value line.now) }
        ensures unchanged { OnErr result (text_of self.new ≡ text_of self.old) }
    {
        match read_line(line) {
            None => Err(LineFault::Form),
            Some(line) => self.take(line),
        }
    }

    fn take(&mut self, line: Line) -> Result<(), LineFault>
        ensures { Answers (text_of self.old) line result (text_of self.new) }
    {
        match line {
            Line::Empty => Ok(()),
            Line::Section { name } => self.begin(name),
            Line::Divider => self.divide(),
            Line::Void { bits } => self.void(bits),
            Line::Field {
                type_name,
                shape,
                name,
            } => self.field(type_name, shape, name),
            Line::Constant {
                type_name,
                name,
                value,
            } => self.constant(type_name, name, value),
        }
    }

    #[tactic(auto, using(crate::proofs::Types::types_of_push, crate::proofs::Types::append_none))]
    fn begin(&mut self, name: Name) -> Result<(), LineFault>
        ensures { Answers (text_of self.old) (Line.Section name) result (text_of self.new) }
    {
        if self.has_type(&name) {
            return Err(LineFault::Twice);
        }
        if self.count() >= 16 {
            return Err(LineFault::Many);
        }
        let section = Section {
            name,
            first: ArrayVec::new(),
            second: None,
        };
        match self.latest.replace(section) {
            None => {
                self.names.clear();
                Ok(())
            }
            Some(before) => {
                self.earlier.push(before);
                self.names.clear();
                Ok(())
            }
        }
    }

    #[tactic(auto, using(crate::proofs::Types::is_some_find_append))]
    fn has_type(&self, name: &[u8]) -> bool
        ensures { result ≡ is_some (texts.type_named (types_in (text_of self.now)) name.now) }
    {
        has_section(&self.earlier, name) || self.is_latest(name)
    }

    fn is_latest(&self, name: &[u8]) -> bool
        ensures { result ≡ is_some (texts.type_named (option_to_list (text_of self.now).latest) name.now) }
    {
        match &self.latest {
            None => false,
            Some(latest) => latest.name.as_slice() == name,
        }
    }

    /// How many types there are.
    #[tactic(auto, using(crate::proofs::Types::count_types))]
    fn count(&self) -> usize
        ensures { result ≡ length (types_in (text_of self.now)) }
    {
        match &self.latest {
            None => self.earlier.len(),
            Some(_) => self.earlier.len() + 1,
        }
    }

    fn divide(&mut self) -> Result<(), LineFault>
        ensures { Answers (text_of self.old) Line.Divider result (text_of self.new) }
    {
        if self.is_divided() {
            return Err(LineFault::Twice);
        }
        let Some(latest) = &mut self.latest else {
            return Err(LineFault::Form);
        };
        begin_second(latest);
        self.names.clear();
        Ok(())
    }

    fn is_divided(&self) -> bool
        ensures { result ≡ texts.has_second (text_of self.now).latest }
    {
        match &self.latest {
            None => false,
            Some(latest) => latest.second.is_some(),
        }
    }

    fn void(&mut self, bits: u8) -> Result<(), LineFault>
        ensures { Answers (text_of self.old) (Line.Void bits) result (text_of self.new) }
    {
        let Some(latest) = &mut self.latest else {
            return Err(LineFault::Form);
        };
        if self.names.is_full() {
            return Err(LineFault::Many);
        }
        self.names.push(ArrayVec::new());
        add_field(latest, Field::Void(bits));
        Ok(())
    }

    fn field(&mut self, type_name: Name, shape: Shape, name: Name) -> Result<(), LineFault>
        ensures { Answers (text_of self.old) (Line.Field type_name shape name) result (text_of self.new) }
    {
        let Some(latest) = &mut self.latest else {
            return Err(LineFault::Form);
        };
        let Some(kind) = kind_named(&self.earlier, &type_name) else {
            return Err(LineFault::Unknown);
        };
        if has_name(&self.names, &name) {
            return Err(LineFault::Twice);
        }
        if self.names.is_full() {
            return Err(LineFault::Many);
        }
        self.names.push(name);
        add_field(latest, Field::Data { kind, shape });
        Ok(())
    }

    fn constant(&mut self, type_name: Name, name: Name, value: Option<u64>) -> Result<(), LineFault>
        ensures { Answers (text_of self.old) (Line.Constant type_name name value) result (text_of self.new) }
    {
        if self.latest.is_none() {
            return Err(LineFault::Form);
        }
        let Some(bits) = number_bits(&type_name) else {
            return Err(LineFault::Unknown);
        };
        if has_name(&self.names, &name) {
            return Err(LineFault::Twice);
        }
        if !fits(value, bits) {
            return Err(LineFault::Range);
        }
        if self.names.is_full() {
            return Err(LineFault::Many);
        }
        self.names.push(name);
        Ok(())
    }

    /// The types of the text.
    pub fn finish(self) -> Texts
        ensures { data_types result ≡ types_in (text_of self) }
    {
        let TextReader {
            earlier,
            latest,
            ..
        } = self;
        Texts::new(earlier, latest)
    }
}

/// Adds a field to the last part of a section.
fn add_field(section: &mut Section, field: Field)
    requires { length (last_part (Some section.old)) < 32 }
    ensures fields { last_part (Some section.new) ≡ last_part (Some section.old) ++ field ∷ [] }
    ensures grown { (types : List DataType) → type_of types section.new
        ≡ texts.with_field (type_of types section.old) (field_layout types field) }
{
    match &mut section.second {
        None => section.first.push(field),
        Some(part) => part.push(field),
    }
}

/// Begins the second part of a section.
fn begin_second(section: &mut Section)
    ensures fields { last_part (Some section.new) ≡ [] }
    ensures grown { (types : List DataType) → type_of types section.new
        ≡ record (type_of types section.old) { second = Some [] } }
{
    section.second = Some(ArrayVec::new());
}

fn has_name(names: &[Name], name: &[u8]) -> bool
    ensures { result ≡ texts.stands_in (map (λ other. other.items) names.now) name.now }
{
    any_name(names, name)
}

fn any_name(names: &[Name], name: &[u8]) -> bool
    ensures { result ≡ list_any (λ other. bytes_eq other.items name.now) names.now }
{
    names.iter().any(|other| other.as_slice() == name)
}

/// Whether a number of so many bits may have the value.
fn fits(value: Option<u64>, bits: u8) -> bool
    requires { bits < 65 }
    ensures { result ≡ texts.fits (Some bits) value }
{
    match value {
        None => false,
        Some(value) => bits == 64 || value < 1 << bits,
    }
}
