//! Whether values and tables are of given types.
ghost use Rattle.std.specs.Prelude.{◌≡◌, true, ◌&&◌, map, IfOk};
ghost use Rattle.bg_ast.specs.Values.{is_of};
ghost use Rattle.bg_sense.specs.Types.{are_of};
ghost use Rattle.bg_sense.specs.Tables.{are_tables};
ghost use Rattle.bg_kinds.specs.Views.{ref_in};
ghost use Rattle.bg_terms.specs.Flat.{HaveNoBodies};
ghost use Rattle.bg_scalar.specs.Values.{value_of};
ghost use Rattle.bg_scalar.specs.Views.{tables_in, table_in, vals_in};
ghost use Rattle.bg_check.specs.Fitting.{meant, entry_fits, entries_fit, EntriesRise};

use bg_ast::resolved::{Function, TypeName};
use bg_fits::{written_kind, written_kinds};
use bg_kinds::ValueType;
use bg_replay::is_of;
use bg_scalar::{Table, Value, is_same};
use std::alloc::{AllocError, Global};

/// Whether values are of these types, one for each.
#[tactic(auto, using(crate::proofs::Fits::lengths_differ))]
pub fn fit(values: &[Value], kinds: &[ValueType]) -> bool
    ensures { result ≡ are_of (map ref_in kinds.now) (vals_in values.now) }
{
    if values.len() != kinds.len() {
        return false;
    }
    for i in 0..values.len() {
        if !is_of(&values[i], kinds[i].as_ref()) {
            return false;
        }
    }
    true
}

/// Whether arguments and a value are of these types, and the value isn't the default.
fn entry_fits(
    params: &[ValueType],
    gives: &ValueType,
    default: &Value,
    key: &[Value],
    value: &Value,
) -> bool
    ensures { result ≡ entry_fits (map ref_in params.now) (ref_in gives.now) (value_of default.now) (vals_in key.now, value_of value.now) }
{
    fit(key, params) && (is_of(value, gives.as_ref()) && !is_same(value, default))
}

/// Whether a table's entries are of these types, and none has the default's value.
fn entries_fit(params: &[ValueType], gives: &ValueType, table: &Table) -> bool
    ensures fit { result ≡ entries_fit (map ref_in params.now) (ref_in gives.now) (value_of table.now.default) (table_in table.now).entries }
    ensures rise { EntriesRise table.now }
{
    for (key, value) in table.entries.iter() {
        if !entry_fits(params, gives, &table.default, key, value) {
            return false;
        }
    }
    true
}

/// Whether a table is one for this function.
fn table_fits(
    alloc: Global,
    types: &[TypeName],
    f: &Function,
    table: &Table,
) -> Result<bool, AllocError>
    ensures fit { IfOk result (λ b. b ≡ (is_of (meant types.now f.now).result (value_of table.now.default) && entries_fit (meant types.now f.now).params (meant types.now f.now).result (value_of table.now.default) (table_in table.now).entries)) }
    ensures rise { IfOk result (λ b. EntriesRise table.now) }
{
    let params = written_kinds(alloc, types, &f.params)?;
    let gives = written_kind(alloc, types, &f.result)?;
    let fits = entries_fit(&params, &gives, table);
    Ok(is_of(&table.default, gives.as_ref()) && fits)
}

/// Whether tables are typed and in normal form, one for each of these functions, which have no bodies.
pub fn tables_fit(
    alloc: Global,
    types: &[TypeName],
    functions: &[Function],
    tables: &[Table],
) -> Result<bool, AllocError>
    ensures { IfOk result (λ b. b ≡ true → HaveNoBodies (map (meant types.now) functions.now) → are_tables (map (meant types.now) functions.now) (tables_in tables.now) ≡ true) }
{
    if tables.len() != functions.len() {
        return Ok(false);
    }
    let mut i = 0;
    while i < tables.len() {
        let fits = table_fits(alloc, types, &functions[i], &tables[i])?;
        if !fits {
            return Ok(false);
        }
        i += 1;
    }
    Ok(true)
}
