//! Where an assertion stands.
ghost use Rattle.std.specs.Prelude.{◌≡◌, IfOk, IsErr, true, false};

use crate::file_path::is_file_path;
use snap_content::Text;
use thiserror::Error;

/// The file of an assertion is no path of a file.
#[derive(Clone, Copy, Debug, PartialEq, Eq, Error)]
#[error("BadPlace")]
pub struct BadPlace;

/// Where an assertion stands: its workspace, and below it function, module, file, line and expression.
#[derive(Debug, Drop)]
pub struct Place {
    workspace: Text,
    function: Text,
    module_name: Text,
    file: Text,
    line: u32,
    expr: Text,
}

impl Place {
    ghost use Rattle.snap_assert_place.specs.Place.{place_of, names_file};

    /// The file is below the workspace. It is refused exactly where it is no path of a file.
    pub fn new(
        workspace: Text,
        function: Text,
        module_name: Text,
        file: Text,
        line: u32,
        expr: Text,
    ) -> Result<Place, BadPlace>
        ensures place { IfOk result (λ place. place_of place
            ≡ record {
              workspace = workspace;
              function = function;
              module_name = module_name;
              file = file;
              line = line;
              expr = expr;
            }) }
        ensures ok { IfOk result (λ place. names_file file ≡ true) }
        ensures refused { IsErr result → names_file file ≡ false }
    {
        if !is_file_path(file.as_str()) {
            return Err(BadPlace);
        }
        Ok(Place::of_file(workspace, function, module_name, file, line, expr))
    }

    /// The same, where the file is known to be the path of one.
    pub fn of_file(
        workspace: Text,
        function: Text,
        module_name: Text,
        file: Text,
        line: u32,
        expr: Text,
    ) -> Place
        requires { names_file file ≡ true }
        ensures { place_of result
            ≡ record {
              workspace = workspace;
              function = function;
              module_name = module_name;
              file = file;
              line = line;
              expr = expr;
            } }
    {
        Place {
            workspace,
            function,
            module_name,
            file,
            line,
            expr,
        }
    }

    pub fn workspace(&self) -> &Text
        ensures { result.now ≡ (place_of self.now).workspace }
    {
        &self.workspace
    }

    pub fn function(&self) -> &Text
        ensures { result.now ≡ (place_of self.now).function }
    {
        &self.function
    }

    pub fn module_name(&self) -> &Text
        ensures { result.now ≡ (place_of self.now).module_name }
    {
        &self.module_name
    }

    pub fn file(&self) -> &Text
        ensures { result.now ≡ (place_of self.now).file }
    {
        &self.file
    }

    pub fn line(&self) -> u32
        ensures { result ≡ (place_of self.now).line }
    {
        self.line
    }

    pub fn expr(&self) -> &Text
        ensures { result.now ≡ (place_of self.now).expr }
    {
        &self.expr
    }
}
