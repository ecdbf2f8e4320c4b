//! The lines of faults of bytes, names and types.
ghost use Rattle.std.specs.Prelude.{◌≡◌, ◌++◌, map, codes, OnOk};
ghost use Rattle.bg_lex.specs.Faults as lexed;
ghost use Rattle.bg_ast.specs.Views.{type_name_of};
ghost use Rattle.bg_kinds.specs.Faults.{position_of};
ghost use Rattle.bg_kinds.specs.Owned.{wanted_type_of, answered};
ghost use Rattle.bg_kinds.specs.Texts.{type_text};
ghost use Rattle.bg_kinds.specs.Views.{ref_in};
ghost use Rattle.bg_front.specs.Lines.{fault_line, bytes_words, name_words, wanted_text, type_words};

use crate::lines::{put_end, put_fault, put_named, put_start};
use bg_ast::resolved::TypeName;
use bg_base::Pos;
use bg_kinds::{Fault as TypeFault, ValueType, WantedType, push_type};
use bg_lex::Fault;
use bg_resolve::FaultKind;
use std::alloc::AllocError;

/// Adds the line of what stands in no token list.
pub(crate) fn put_bytes(out: &mut Vec<u8>, pos: Pos, fault: Fault<'_>) -> Result<(), AllocError>
    ensures { OnOk result (out.new.items ≡ out.old.items ++ fault_line pos (bytes_words (lexed.fault_of fault.entry))) }
{
    match fault {
        Fault::BadByte => put_fault(out, pos, b"bad byte"),
        Fault::OpenComment => put_fault(out, pos, b"open comment"),
        Fault::NumberTooBig => put_fault(out, pos, b"number too big"),
        Fault::Unsupported(name) => put_named(out, pos, b"unsupported ", name),
    }
}

/// Adds the line of a fault of names.
pub(crate) fn put_name(
    out: &mut Vec<u8>,
    kind: FaultKind,
    pos: Pos,
    name: &[u8],
) -> Result<(), AllocError>
    ensures { OnOk result (out.new.items ≡ out.old.items ++ fault_line pos (name_words kind name.now)) }
{
    match kind {
        FaultKind::UnknownName => put_named(out, pos, b"unknown ", name),
        FaultKind::Duplicate => put_named(out, pos, b"duplicate ", name),
        FaultKind::AssignsInput => put_named(out, pos, b"input ", name),
        FaultKind::NotModified => put_named(out, pos, b"modifies ", name),
        FaultKind::BadTarget => put_named(out, pos, b"target ", name),
        FaultKind::BadCandidateUse => put_named(out, pos, b"candidate ", name),
        FaultKind::BadOld => put_fault(out, pos, b"old"),
        FaultKind::RecursiveFunction => put_named(out, pos, b"recursive ", name),
        FaultKind::UnnamedArgument => put_fault(out, pos, b"unnamed"),
    }
}

fn put_wanted(out: &mut Vec<u8>, types: &[TypeName], wanted: &WantedType) -> Result<(), AllocError>
    ensures { OnOk result (out.new.items ≡ out.old.items ++ wanted_text (map type_name_of types.now) (wanted_type_of wanted.now)) }
{
    match wanted {
        WantedType::SomeMap => out.extend_from_slice(b"map"),
        WantedType::Wants(t) => push_type(out, types, t),
    }
}

/// Adds the wanted and the found type.
fn put_types(
    out: &mut Vec<u8>,
    types: &[TypeName],
    wanted: &WantedType,
    found: &ValueType,
) -> Result<(), AllocError>
    ensures { OnOk result (out.new.items ≡ out.old.items ++ (codes "type " ++ wanted_text (map type_name_of types.now) (wanted_type_of wanted.now) ++ codes " " ++ type_text (map type_name_of types.now) (ref_in found.now))) }
{
    out.extend_from_slice(b"type ")?;
    put_wanted(out, types, wanted)?;
    out.extend_from_slice(b" ")?;
    push_type(out, types, found)
}

fn put_mismatch(
    out: &mut Vec<u8>,
    types: &[TypeName],
    pos: Pos,
    wanted: &WantedType,
    found: &ValueType,
) -> Result<(), AllocError>
    ensures { OnOk result (out.new.items ≡ out.old.items ++ fault_line pos (codes "type " ++ wanted_text (map type_name_of types.now) (wanted_type_of wanted.now) ++ codes " " ++ type_text (map type_name_of types.now) (ref_in found.now))) }
{
    put_start(out, pos)?;
    put_types(out, types, wanted, found)?;
    put_end(out)
}

/// Adds the line of a fault of types.
pub(crate) fn put_type(
    out: &mut Vec<u8>,
    types: &[TypeName],
    fault: &TypeFault,
) -> Result<(), AllocError>
    ensures { OnOk result (out.new.items ≡ out.old.items ++ fault_line (position_of (answered fault.now)) (type_words (map type_name_of types.now) (answered fault.now))) }
{
    match fault {
        TypeFault::CyclicSynonym(name) => put_named(out, name.pos, b"cyclic ", &name.text),
        TypeFault::MapIndex(pos) => put_fault(out, *pos, b"index"),
        TypeFault::Arity(pos) => put_fault(out, *pos, b"arity"),
        TypeFault::Mismatch(pos, wanted, found) => { put_mismatch(out, types, *pos, wanted, found) }
        TypeFault::Nonlinear(pos) => put_fault(out, *pos, b"nonlinear"),
    }
}
