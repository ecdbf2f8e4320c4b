//! Programs of texts.
ghost use Rattle.std.specs.Prelude.{◌≡◌, true, Some};
ghost use Rattle.bg_opened.specs.Openable.{IsOpenable};
ghost use Rattle.bg_ast.specs.Meaning.{meaning_of};
ghost use Rattle.bg_ast.specs.Views.{program_of};
ghost use Rattle.bg_sense.specs.Typed.{IsTyped};
ghost use Rattle.bg_sense.specs.Resolved.{IsResolved};
ghost use Rattle.bg_fits.specs.Valued.{is_over_values};

use bg_ast::resolved::Resolved;
use bg_front::read_program;
use bg_judged::laws::judged_programs_are_openable;
use bg_opened::laws::{opened_programs_are_over_values, written_programs_are_opened};
use bg_opening::open_program;
use bg_types::Typed;
use std::alloc::Global;

/// The opened program, if memory is enough.
fn opened(alloc: Global, typed: Typed) -> Option<Resolved>
    requires { IsOpenable 16 (meaning_of (program_of typed.program)) }
    ensures typed { (p : Resolved) → result ≡ Some p → IsTyped (meaning_of (program_of p)) }
    ensures resolved { (p : Resolved) → result ≡ Some p → IsResolved (meaning_of (program_of p)) }
    ensures scalars { (p : Resolved) → result ≡ Some p → is_over_values (meaning_of (program_of p)) ≡ true }
{
    opened_programs_are_over_values();
    written_programs_are_opened();
    match open_program(alloc, 16, typed.program) {
        Ok(opened) => Some(opened),
        Err(_) => None,
    }
}

/// The opened program of the one that a text spells, if it spells one of which verdicts are given, and memory is enough.
pub fn judged_program(alloc: Global, text: &str) -> Option<Resolved>
    ensures typed { (p : Resolved) → result ≡ Some p → IsTyped (meaning_of (program_of p)) }
    ensures resolved { (p : Resolved) → result ≡ Some p → IsResolved (meaning_of (program_of p)) }
    ensures scalars { (p : Resolved) → result ≡ Some p → is_over_values (meaning_of (program_of p)) ≡ true }
{
    judged_programs_are_openable();
    match read_program(alloc, text.as_bytes(), false) {
        Ok(typed) => opened(alloc, typed),
        Err(_) => None,
    }
}
