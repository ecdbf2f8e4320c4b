//! What has a value in a counterexample.
ghost use Rattle.std.specs.Prelude.{◌≡◌, map};
ghost use Rattle.bg_ast.specs.Views.{declared_of, fun_of};
ghost use Rattle.bg_told.specs.Entries.{declared_types, all_named, sheet_in};

use bg_ast::resolved::{Declared, Function, TypeName};
use bg_inference::Outcome;

/// The types, the constants, the functions and the globals of a program, and for each function whether it has a body.
#[derive(Clone, Copy)]
pub struct Declarations<'a> {
    pub types: &'a [TypeName],
    pub constants: &'a [Declared],
    pub functions: &'a [Function],
    pub bodies: &'a [bool],
    pub globals: &'a [Declared],
}

/// Those of the program of an outcome: in the opened program the constants stand behind the globals, and no function has a body.
pub fn declared_in(outcome: &Outcome) -> Declarations<'_>
    ensures types { declared_types result.types.now ≡ (sheet_in outcome.now).outer.types }
    ensures constants { map declared_of result.constants.now ≡ (sheet_in outcome.now).outer.constants }
    ensures functions { all_named (declared_types result.types.now) (map fun_of result.functions.now) result.bodies.now ≡ (sheet_in outcome.now).outer.functions }
    ensures globals { map declared_of result.globals.now ≡ (sheet_in outcome.now).outer.globals }
{
    let all = outcome.opened.globals.as_slice();
    if outcome.globals <= all.len() {
        Declarations {
            types: &outcome.opened.types,
            constants: &all[outcome.globals..],
            functions: &outcome.opened.functions,
            bodies: &outcome.bodies,
            globals: &all[..outcome.globals],
        }
    } else {
        Declarations {
            types: &outcome.opened.types,
            constants: &[],
            functions: &outcome.opened.functions,
            bodies: &outcome.bodies,
            globals: all,
        }
    }
}
