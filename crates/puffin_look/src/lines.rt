//! Makes a list, line by line, in one of two forms.

ghost use Rattle.std.specs.Prelude.{◌≡◌, ◌++◌, true, false, OnOk, IfOk};
ghost use Rattle.puffin_look.specs.Forms.{opening, separator, closing, separator_if};
ghost use Rattle.puffin_look.specs.inner.Lining.{Adds};

use std::alloc::{AllocError, Global};

/// How a list is printed.
#[derive(Clone, Copy, Debug, PartialEq, Eq)]
pub enum Form {
    /// A table for a person: a line with the names of the columns, and a line for each row. Numbers have commas between
    /// thousands, durations have a unit, and names have escapes for control characters.
    Table,
    /// An array in JSON: an object for each row, one a line, with the names of the columns as keys. Times and durations are in
    /// nanoseconds, and shares in percent. A number beyond `2^53` is a string of its digits, and what isn't there is `null`.
    Json,
}

impl Form {
    /// Returns what stands in front of the lines, behind the line with the names of a table's columns.
    fn opening(self, column_names: &'static [u8]) -> &'static [u8]
        ensures { result.now ≡ opening self column_names.now }
    {
        match self {
            Form::Table => column_names,
            Form::Json => b"[",
        }
    }

    /// Returns what stands between two lines.
    fn separator(self) -> &'static [u8]
        ensures { result.now ≡ separator self }
    {
        match self {
            Form::Table => b"",
            Form::Json => b",\n",
        }
    }

    /// Returns what stands behind the lines.
    pub(crate) fn closing(self) -> &'static [u8]
        ensures { result.now ≡ closing self }
    {
        match self {
            Form::Table => b"",
            Form::Json => b"]\n",
        }
    }
}

/// The text of a list so far.
#[derive(Drop)]
pub(crate) struct Lines {
    pub text: Vec<u8>,
    /// What stands between two lines.
    pub separator: &'static [u8],
    /// Whether there is a line.
    pub has_any: bool,
}

impl Lines {
    /// Returns a list without lines. A table has a line with the names of its columns.
    pub(crate) fn new(
        alloc: Global,
        form: Form,
        column_names: &'static [u8],
    ) -> Result<Lines, AllocError>
        ensures text { IfOk result (λ lines. lines.text.items ≡ opening form column_names.now) }
        ensures separator { IfOk result (λ lines. lines.separator.now ≡ separator form) }
        ensures none { IfOk result (λ lines. lines.has_any ≡ false) }
    {
        Ok(Lines {
            text: Vec::from_slice(alloc, form.opening(column_names))?,
            separator: form.separator(),
            has_any: false,
        })
    }

    /// Begins a line: appends what stands between the lines so far and this one.
    pub(crate) fn begin_line(&mut self) -> Result<(), AllocError>
        ensures text { OnOk result (self.new.text.items
            ≡ self.old.text.items ++ separator_if self.old.separator.now self.old.has_any) }
        ensures separator { self.new.separator ≡ self.old.separator }
        ensures any { OnOk result (self.new.has_any ≡ true) }
    {
        if self.has_any {
            self.text.extend_from_slice(self.separator)?;
        }
        self.has_any = true;
        Ok(())
    }

    /// Adds a line.
    pub(crate) fn add(&mut self, line: &[u8]) -> Result<(), AllocError>
        ensures { OnOk result (Adds self.old self.new line.now) }
    {
        self.begin_line()?;
        self.text.extend_from_slice(line)
    }

    /// Returns the whole text, once all lines were added.
    pub(crate) fn closed(self, form: Form) -> Result<Vec<u8>, AllocError>
        ensures { IfOk result (λ text. text.items ≡ self.text.items ++ closing form) }
    {
        let mut text = self.text;
        text.extend_from_slice(form.closing())?;
        Ok(text)
    }
}
