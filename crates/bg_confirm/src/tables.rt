//! The tables that a certificate gives functions.
ghost use Rattle.std.specs.Prelude.{◌≡◌, true, map, IfOk};
ghost use Rattle.std.specs.List.{list_all};
ghost use Rattle.bg_ast.specs.Meaning as m;
ghost use Rattle.bg_ast.specs.Meaning.{meaning_of, named_of};
ghost use Rattle.bg_ast.specs.Views.{program_of, type_name_of, fun_of};
ghost use Rattle.bg_kinds.specs.Views.{base_of, ref_in, ref_of};
ghost use Rattle.bg_sense.specs.Eval.{default_for};
ghost use Rattle.bg_scalar.specs.Values as scalar;
ghost use Rattle.bg_scalar.specs.Values.{val_of};
ghost use Rattle.bg_scalar.specs.Views.{table_in, tables_in, vals_in};
ghost use Rattle.bg_certtext.specs.Views.{value_of, function_of};
ghost use Rattle.bg_certtext.specs.Spellable.{is_function};
ghost use Rattle.bg_confirm.specs.Met.{vals_for, blank, table_of, tables_by};

use crate::signature::read_signature;
use crate::values::{type_at, value_in};
use bg_ast::resolved::{Function, Resolved, TypeName};
use bg_certtext::Value;
use bg_fits::written_kind;
use bg_kinds::{Base, TypeRef, ValueType};
use bg_scalar::{Scalar, Table};
use std::alloc::{AllocError, Global};
use std::collections::BTreeMap;

/// The arguments of an entry, where these are the types of a function's.
fn key_of(
    alloc: Global,
    kinds: &[ValueType],
    key: &[Value],
) -> Result<Vec<bg_scalar::Value>, AllocError>
    ensures { IfOk result (λ made. vals_in made.items ≡ vals_for (map ref_in kinds.now) (map value_of key.now)) }
{
    let mut made = Vec::new(alloc);
    for k in 0..key.len() {
        let value = value_in(alloc, type_at(kinds, k), &key[k])?;
        made.push(value)?;
    }
    Ok(made)
}

/// A function's table, entered from its last entry on.
fn table_of(
    alloc: Global,
    types: &[TypeName],
    f: &Function,
    given: &bg_certtext::Function,
) -> Result<Table, AllocError>
    requires spelled { is_function (function_of given.now) ≡ true }
    ensures { IfOk result (λ made. table_in made ≡ table_of (m.fun_of (named_of (map type_name_of types.now)) (fun_of f.now)) (function_of given.now)) }
{
    let s = read_signature(alloc, types, f)?;
    let mut entries = BTreeMap::new(alloc);
    let mut k = given.entries.len();
    while k > 0 {
        k -= 1;
        let entry = &given.entries[k];
        let key = key_of(alloc, &s.params, &entry.key)?;
        let value = value_in(alloc, s.value.as_ref(), &entry.value)?;
        entries.insert(key, value)?;
    }
    let default = value_in(alloc, s.value.as_ref(), &given.default)?;
    Ok(Table { entries, default })
}

fn default_of(base: Base) -> Scalar
    ensures { val_of result ≡ default_for (base_of base) }
{
    match base {
        Base::Bool => Scalar::Truth(false),
        Base::Int => Scalar::Number(0),
        Base::User(k) => Scalar::Element(k, 0),
    }
}

/// Some value of a type, the same as everywhere.
fn default_value(alloc: Global, t: TypeRef<'_>) -> Result<bg_scalar::Value, AllocError>
    ensures { IfOk result (λ made. scalar.value_of made ≡ default_for (ref_of t.entry)) }
{
    let mut made = bg_scalar::Value::Plain(default_of(t.base));
    let mut k = 0;
    while k < t.maps.len() {
        let inner = Box::new(alloc, made)?;
        made = bg_scalar::Value::Map(Vec::new(alloc), inner);
        k += 1;
    }
    Ok(made)
}

/// A function's table without entries.
fn blank(alloc: Global, types: &[TypeName], f: &Function) -> Result<Table, AllocError>
    ensures { IfOk result (λ made. table_in made ≡ blank (m.fun_of (named_of (map type_name_of types.now)) (fun_of f.now))) }
{
    let result = written_kind(alloc, types, &f.result)?;
    let default = default_value(alloc, result.as_ref())?;
    Ok(Table {
        entries: BTreeMap::new(alloc),
        default,
    })
}

/// The tables of a program's functions: where one has no body the next of these, else one without entries.
pub fn tables_by(
    alloc: Global,
    program: &Resolved,
    given: &[bg_certtext::Function],
) -> Result<Vec<Table>, AllocError>
    requires spelled { list_all is_function (map function_of given.now) ≡ true }
    ensures { IfOk result (λ made. tables_in made.items ≡ tables_by (meaning_of (program_of program.now)).functions (map function_of given.now)) }
{
    let mut made = Vec::new(alloc);
    let mut next = 0;
    for f in &program.functions {
        if f.body.is_none() && next < given.len() {
            made.push(table_of(alloc, &program.types, f, &given[next])?)?;
            next += 1;
        } else {
            made.push(blank(alloc, &program.types, f)?)?;
        }
    }
    Ok(made)
}
