ghost use Rattle.std.specs.Prelude.{◌≡◌, Some, string_bytes, IfOk, IsOkUnless};
ghost use Rattle.std.specs.List.{list_any};
ghost use Rattle.std.specs.Arc.{arc_value};
ghost use Rattle.std.specs.Cow.{cow_str_bytes};
ghost use Rattle.puffin_data.specs.declared.error.Error.{Error};
ghost use Rattle.puffin_threads.specs.Details.{details_of, default_details, name_of, type_of, location_of, with_id, lacks_id};

use crate::scope_details::scope_type::ScopeType;
use puffin_data::data::ScopeId;
use puffin_data::{Error, Result};
use std::alloc::Global;
use std::borrow::CowStr;
use std::sync::Arc;

/// The details of a scope: its id, its names and its place in the code. Details are ordered by id, then by scope name,
/// function, file and line; a missing id or name comes first.
#[derive(Debug, PartialEq, Eq, PartialOrd, Ord, Hash, Drop)]
pub struct ScopeDetails {
    pub(crate) scope_id: Option<ScopeId>,
    /// The scope's own name, or `None` if the scope is a whole function.
    pub scope_name: Option<CowStr<'static>>,
    /// The function that contains the scope.
    pub function_name: CowStr<'static>,
    /// The file that contains the scope.
    pub file_path: CowStr<'static>,
    /// The line in the file, counted from 1, or 0 if it is unknown.
    pub line_nr: u32,
}

impl ScopeDetails {
    /// Makes details with this scope name. The other fields are those of the default.
    ///
    /// ```
    /// let details = ScopeDetails::from_scope_name(CowStr::Borrowed("part")).with_line_nr(7);
    /// ```
    pub fn from_scope_name(scope_name: CowStr<'static>) -> ScopeDetails
        ensures { details_of result
            ≡ record default_details { scope_name = Some (cow_str_bytes scope_name.entry) } }
    {
        ScopeDetails {
            scope_name: Some(scope_name),
            ..ScopeDetails::default()
        }
    }

    /// Sets the function.
    pub fn with_function_name(mut self, function_name: CowStr<'static>) -> ScopeDetails
        ensures { details_of result
            ≡ record (details_of self) { function_name = cow_str_bytes function_name.entry } }
    {
        self.function_name = function_name;
        self
    }

    /// Sets the file.
    pub fn with_file(mut self, file_path: CowStr<'static>) -> ScopeDetails
        ensures { details_of result
            ≡ record (details_of self) { file_path = cow_str_bytes file_path.entry } }
    {
        self.file_path = file_path;
        self
    }

    /// Sets the line.
    pub fn with_line_nr(mut self, line_nr: u32) -> ScopeDetails
        ensures { details_of result ≡ record (details_of self) { line_nr = line_nr } }
    {
        self.line_nr = line_nr;
        self
    }

    /// Sets the id.
    pub fn with_scope_id(mut self, scope_id: ScopeId) -> ScopeDetails
        ensures { details_of result ≡ with_id (details_of self) scope_id }
    {
        self.scope_id = Some(scope_id);
        self
    }

    /// Returns the id, if there is one.
    pub fn scope_id(&self) -> Option<ScopeId>
        ensures { result ≡ (details_of self.now).id }
    {
        self.scope_id
    }

    /// Returns the scope's name, or the function's if the scope has none.
    pub fn name(&self) -> &CowStr<'static>
        ensures { cow_str_bytes result.now ≡ name_of (details_of self.now) }
    {
        self.scope_name.as_ref().unwrap_or(&self.function_name)
    }

    /// Returns whether the scope is a whole function or named.
    pub fn scope_type(&self) -> ScopeType
        ensures { result ≡ type_of (details_of self.now) }
    {
        if self.scope_name.is_some() {
            ScopeType::Named
        } else {
            ScopeType::Function
        }
    }

    /// Formats the place in the code: `file:line`, or `file` if the line is 0. Fails only with `Memory`.
    pub fn location(&self, alloc: Global) -> Result<String>
        ensures ok { IfOk result (λ text. string_bytes text ≡ location_of (details_of self.now)) }
        ensures err { IsOkUnless result Error.Memory }
    {
        let file = self.file_path.as_str();
        let line = self.line_nr;
        if line == 0 {
            Ok(String::from_str(alloc, file)?)
        } else {
            Ok(format!(in alloc; "{file}:{line}")?)
        }
    }

    /// Copies the details. Fails only with `Memory`.
    pub fn clone(&self) -> Result<ScopeDetails>
        ensures ok { IfOk result (λ details. details_of details ≡ details_of self.now) }
        ensures err { IsOkUnless result Error.Memory }
    {
        Ok(ScopeDetails {
            scope_id: self.scope_id,
            scope_name: self.scope_name.clone()?,
            function_name: self.function_name.clone()?,
            file_path: self.file_path.clone()?,
            line_nr: self.line_nr,
        })
    }
}

impl Default for ScopeDetails {
    ghost is_default = { λ details. details_of details ≡ default_details };

    /// Returns details without an id or scope name. Function and file are empty, and the line is 0.
    fn default() -> ScopeDetails {
        ScopeDetails {
            scope_id: None,
            scope_name: None,
            function_name: CowStr::Borrowed(""),
            file_path: CowStr::Borrowed(""),
            line_nr: 0,
        }
    }
}

/// Returns whether any of these details have no id.
pub fn any_lacks_id(details: &[Arc<ScopeDetails>]) -> bool
    ensures { result ≡ list_any (λ one. lacks_id (details_of (arc_value one))) details.now }
{
    details.iter().any(|details| details.scope_id().is_none())
}
